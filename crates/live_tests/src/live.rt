//! Whole runs in threads.

use crate::fixtures::{
    FALSE_SHARING, ONE_SLOT, TWO_SLOTS, Told, again, bounced_over, told_of, whole, words,
};
use crate::gates::Meeting;
use nc_io::{MemSink, MemSource};
use nc_live::{Gate, NoGate, dmalive};
use std::alloc::{AllocError, Global};
use std::sync::Wait;
use std::test::Fail;
use std::thread::Threads;

/// Runs a scenario with an empty schedule in threads.
fn live<R: Threads + Wait + Sync, G: Gate>(
    rt: &R,
    alloc: Global,
    scenario: &str,
    gate: &G,
) -> Result<Option<Told>, AllocError> {
    let mut src = MemSource::new(whole(alloc, scenario)?, 4096, Vec::new(alloc));
    let mut out = MemSink::new(alloc, Vec::new(alloc));
    let status = dmalive(rt, alloc, &words(alloc, "run")?, &mut src, &mut out, gate);
    match str::from_utf8(out.bytes()) {
        Ok(text) => Ok(Some(told_of(alloc, status, text)?)),
        Err(_) => Ok(None),
    }
}

/// Returns whether the history runs again to the same report and status.
fn runs_again(alloc: Global, scenario: &str, told: &Told) -> Result<bool, AllocError> {
    let (status, report) = again(alloc, scenario, &told.tokens)?;
    Ok(status == told.status && report.as_slice() == told.report.as_bytes())
}

/// Counts the tokens that are steps and drains of the hart.
fn events_of(tokens: &[String], hart: char) -> u64 {
    let mut count = 0u64;
    for token in tokens {
        let mut chars = token.as_str().chars();
        let kind = chars.next();
        if (kind == Some('i') || kind == Some('d')) && chars.next() == Some(hart) {
            count = count.saturating_add(1);
        }
    }
    count
}

/// Counts the lines of the report that begin with one of these.
fn lines_with(report: &str, starts: &[&str]) -> usize {
    report
        .lines()
        .filter(|line| starts.iter().any(|start| line.starts_with(*start)))
        .count()
}

#[test]
fn two_drivers_at_once(rt: HostRuntime) -> Result<(), Fail> {
    let alloc = rt.alloc();
    let gate = Meeting::new();
    let Some(told) = live(&rt, alloc, FALSE_SHARING, &gate)? else {
        assert!(rt; false);
        return Ok(());
    };
    // Both came to their first turns, and neither went on alone.
    assert_eq!(rt; gate.alone(), 0);
    assert!(rt; 0 < gate.turns(0) && 0 < gate.turns(1));
    // The last tokens are a finishing round.
    let last = [
        "i0", "i1", "d0.0", "d1.0", "r0", "w0", "r1", "w1", "r2", "w2", "r3", "w3",
    ];
    let Some(turns) = told.tokens.len().checked_sub(last.len()) else {
        assert!(rt; false);
        return Ok(());
    };
    for (token, wanted) in told.tokens[turns..].iter().zip(last.iter()) {
        assert_eq!(rt; token.as_str(), *wanted);
    }
    // Each step and drain before it is a turn that its own thread announced.
    assert!(rt; events_of(&told.tokens[..turns], '0') <= gate.turns(0));
    assert!(rt; events_of(&told.tokens[..turns], '1') <= gate.turns(1));
    assert_eq!(rt; told.status, 0);
    assert!(rt; runs_again(alloc, FALSE_SHARING, &told)?);
    Ok(())
}

#[test]
fn two_pool_answers(rt: HostRuntime) -> Result<(), Fail> {
    let alloc = rt.alloc();
    let scenario = bounced_over(alloc, TWO_SLOTS)?;
    let Some(told) = live(&rt, alloc, scenario.as_str(), &NoGate)? else {
        assert!(rt; false);
        return Ok(());
    };
    let report = told.report.as_str();
    assert_eq!(rt; told.status, 0);
    assert_eq!(rt; lines_with(report, &["ans 0 0 mapped "]), 1);
    assert_eq!(rt; lines_with(report, &["ans 1 0 mapped "]), 1);
    // Each driver is told once that it got a slot, never that the machine has it as another's, and none tries by
    // itself.
    assert_eq!(rt; lines_with(report, &["told 0 0 got", "told 0 1 got"]), 1);
    assert_eq!(rt; lines_with(report, &["told 1 0 got", "told 1 1 got"]), 1);
    assert_eq!(rt; lines_with(report, &["told 0 0 held", "told 0 1 held"]), 0);
    assert_eq!(rt; lines_with(report, &["told 1 0 held", "told 1 1 held"]), 0);
    assert_eq!(rt; lines_with(report, &["try "]), 0);
    assert!(rt; runs_again(alloc, scenario.as_str(), &told)?);
    Ok(())
}

#[test]
fn one_slot_between_two(rt: HostRuntime) -> Result<(), Fail> {
    let alloc = rt.alloc();
    let scenario = bounced_over(alloc, ONE_SLOT)?;
    let Some(told) = live(&rt, alloc, scenario.as_str(), &NoGate)? else {
        assert!(rt; false);
        return Ok(());
    };
    let report = told.report.as_str();
    assert_eq!(rt; told.status, 0);
    assert_eq!(rt;
        lines_with(report, &["ans 0 0 mapped ", "ans 1 0 mapped "]),
        1
    );
    assert_eq!(rt;
        lines_with(report, &["ans 0 0 noslot", "ans 1 0 noslot"]),
        1
    );
    assert!(rt; runs_again(alloc, scenario.as_str(), &told)?);
    Ok(())
}

#[test]
fn unknown_words(rt: HostRuntime) -> Result<(), Fail> {
    let alloc = rt.alloc();
    let words = words(alloc, "gen")?;
    let mut src = MemSource::new(Vec::new(alloc), 4096, Vec::new(alloc));
    let mut out = MemSink::new(alloc, Vec::new(alloc));
    assert_eq!(rt; dmalive(&rt, alloc, &words, &mut src, &mut out, &NoGate), 2);
    assert_eq!(rt; out.bytes(), b"refused words\n".as_slice());
    Ok(())
}
