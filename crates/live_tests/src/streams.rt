//! Runs in threads whose reads and writes fail, each in turn.

use crate::fixtures::{
    MAPPING, NO_HART, ROUNDS_ALONE, SEARCH, TWO_DRIVERS, again, bounced_over, rounds_alone_text,
    told_of, whole, words,
};
use nc_io::{MemSink, MemSource};
use nc_live::{NoGate, dmalive};
use std::alloc::{AllocError, Global};
use std::sync::Wait;
use std::test::Fail;
use std::thread::Threads;

/// The most calls that are made to fail.
const MOST: u32 = 1000;

/// The most bytes that a read gives.
const CHUNK: usize = 64;

/// Runs a scenario in threads, where the reads and the writes of these indices fail. Returns the status and what was
/// written.
fn answer<R: Threads + Wait + Sync>(
    rt: &R,
    alloc: Global,
    word: &str,
    scenario: &str,
    reads: Vec<u32>,
    writes: Vec<u32>,
) -> Result<(u8, Vec<u8>), AllocError> {
    let mut src = MemSource::new(whole(alloc, scenario)?, CHUNK, reads);
    let mut out = MemSink::new(alloc, writes);
    let status = dmalive(rt, alloc, &words(alloc, word)?, &mut src, &mut out, &NoGate);
    Ok((status, Vec::from_slice(alloc, out.bytes())?))
}

/// Lets each read of a run fail in turn, and returns how many did: each was answered with 4, and nothing was written.
fn failed_reads<R: Threads + Wait + Sync>(
    rt: &R,
    alloc: Global,
    word: &str,
    scenario: &str,
) -> Result<Option<usize>, AllocError> {
    for k in 0..MOST {
        let (status, text) = answer(
            rt,
            alloc,
            word,
            scenario,
            vec![in alloc; k]?,
            Vec::new(alloc),
        )?;
        if status != 4 {
            return Ok(Some(k as usize));
        }
        if !text.is_empty() {
            return Ok(None);
        }
    }
    Ok(None)
}

/// Returns what is due for the history of a run: the status and the text, by `dmasim` over the history's own events.
fn due(alloc: Global, scenario: &str, tokens: &[String]) -> Result<(u8, Vec<u8>), AllocError> {
    let count = tokens.len();
    let mut text = format!(in alloc; "history {count}\n")?.into_bytes();
    for token in tokens {
        text.extend_from_slice(token.as_bytes())?;
        text.push(b'\n')?;
    }
    let (status, report) = again(alloc, scenario, tokens)?;
    text.extend_from_slice(&report)?;
    Ok((status, text))
}

/// Returns whether a run answered what is due for the history that it wrote: all of it, with its status, or where a
/// write failed, 5 with a prefix of it. A prefix that is not empty has the whole history.
fn is_due(alloc: Global, scenario: &str, status: u8, text: &[u8]) -> Result<bool, AllocError> {
    let Ok(told) = str::from_utf8(text) else {
        return Ok(false);
    };
    let told = told_of(alloc, status, told)?;
    let (wanted, all) = due(alloc, scenario, &told.tokens)?;
    if status == 5 {
        return Ok(text.is_empty() || all.starts_with(text) && text.len() < all.len());
    }
    Ok(status == wanted && text == all.as_slice())
}

/// Lets each write of a run in threads fail in turn, up to the first run that makes fewer writes, and returns how many
/// failed: each run answered what is due for its history.
fn failed_writes<R: Threads + Wait + Sync>(
    rt: &R,
    alloc: Global,
    scenario: &str,
) -> Result<Option<u32>, AllocError> {
    for k in 0..MOST {
        let (status, text) = answer(
            rt,
            alloc,
            "run",
            scenario,
            Vec::new(alloc),
            vec![in alloc; k]?,
        )?;
        if !is_due(alloc, scenario, status, &text)? || text.is_empty() != (k == 0) {
            return Ok(None);
        }
        if status != 5 {
            return Ok(Some(k));
        }
    }
    Ok(None)
}

#[test]
fn each_read_fails(rt: HostRuntime) -> Result<(), Fail> {
    let alloc = rt.alloc();
    let search = bounced_over(alloc, SEARCH)?;
    for scenario in [TWO_DRIVERS, MAPPING, search.as_str(), ROUNDS_ALONE, NO_HART] {
        // A read for each chunk, and one that tells the end.
        let chunks = whole(alloc, scenario)?.len().div_ceil(CHUNK);
        assert_eq!(rt;
            failed_reads(&rt, alloc, "run", scenario)?,
            chunks.checked_add(1)
        );
    }
    // Words that are no command read nothing.
    assert_eq!(rt; failed_reads(&rt, alloc, "gen", MAPPING)?, Some(0));
    Ok(())
}

#[test]
fn each_write_fails(rt: HostRuntime) -> Result<(), Fail> {
    let alloc = rt.alloc();
    let search = bounced_over(alloc, SEARCH)?;
    for scenario in [TWO_DRIVERS, MAPPING, search.as_str()] {
        let Some(failed) = failed_writes(&rt, alloc, scenario)? else {
            assert!(rt; false);
            return Ok(());
        };
        // One for the history, one for an event at least, and one for what comes after the events.
        assert!(rt; 2 < failed);
    }
    Ok(())
}

#[test]
fn each_write_of_known_text_fails(rt: HostRuntime) -> Result<(), Fail> {
    let alloc = rt.alloc();
    let rounds = rounds_alone_text(alloc)?;
    let cases: [(&str, &str, u8, &[u8], u32); 3] = [
        ("run", ROUNDS_ALONE, 0, rounds.as_bytes(), 4),
        ("run", NO_HART, 3, b"refused limit harts 0\n", 1),
        ("gen", MAPPING, 2, b"refused words\n", 1),
    ];
    for (word, scenario, wanted, due, writes) in cases {
        for k in 0..writes {
            let (status, text) = answer(
                &rt,
                alloc,
                word,
                scenario,
                Vec::new(alloc),
                vec![in alloc; k]?,
            )?;
            assert_eq!(rt; status, 5);
            assert!(rt; due.starts_with(&text) && text.len() < due.len());
            assert_eq!(rt; text.is_empty(), k == 0);
        }
        let (status, text) = answer(
            &rt,
            alloc,
            word,
            scenario,
            Vec::new(alloc),
            vec![in alloc; writes]?,
        )?;
        assert_eq!(rt; status, wanted);
        assert_eq!(rt; text.as_slice(), due);
    }
    Ok(())
}
