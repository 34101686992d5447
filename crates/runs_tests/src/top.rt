//! Streams that fail in mid-stream, and real readers and writers: what no stored run shows.

use crate::fixtures::{
    EMPTY_SCRIPT, FALSE_SHARING, HAND_WITH_STORES_QUEUED, false_sharing_report,
    hand_with_stores_queued_report, words,
};
use nc_io::{MemSink, MemSource, StdSink, StdSource};
use nc_top::dmasim;
use std::test::Fail;

/// The most bytes that a read gives where each read fails in turn.
const CHUNK: usize = 16;

#[test]
fn failing_streams(rt: HostRuntime) -> Result<(), Fail> {
    let alloc = rt.alloc();
    let words = words(alloc, "run")?;
    let mut src = MemSource::new(Vec::from_slice(alloc, EMPTY_SCRIPT)?, 8, vec![in alloc; 1]?);
    let mut out = MemSink::new(alloc, Vec::new(alloc));
    assert_eq!(rt; dmasim(alloc, &words, &mut src, &mut out), 4);
    assert!(rt; out.bytes().is_empty());
    let mut src = MemSource::new(Vec::from_slice(alloc, EMPTY_SCRIPT)?, 4096, Vec::new(alloc));
    let mut out = MemSink::new(alloc, vec![in alloc; 0]?);
    assert_eq!(rt; dmasim(alloc, &words, &mut src, &mut out), 5);
    assert!(rt; out.bytes().is_empty());
    Ok(())
}

#[test]
fn sink_fails_at_each_write(rt: HostRuntime) -> Result<(), Fail> {
    let alloc = rt.alloc();
    let words = words(alloc, "run")?;
    let report = false_sharing_report(alloc)?;
    let due = report.as_bytes();
    let mut stopped = 0;
    for k in 0..41u32 {
        let input = Vec::from_slice(alloc, FALSE_SHARING)?;
        let mut src = MemSource::new(input, 4096, Vec::new(alloc));
        let mut out = MemSink::new(alloc, vec![in alloc; k; 1]?);
        let status = dmasim(alloc, &words, &mut src, &mut out);
        if status == 0 {
            assert_eq!(rt; out.bytes(), due);
        } else {
            assert_eq!(rt; status, 5);
            assert_eq!(rt; k, stopped);
            assert!(rt; due.starts_with(out.bytes()));
            assert!(rt; out.bytes().len() < due.len());
            stopped += 1;
        }
    }
    // One write for each of the six events, and one for what comes after them.
    assert_eq!(rt; stopped, 7);
    Ok(())
}

#[test]
fn source_fails_at_each_read(rt: HostRuntime) -> Result<(), Fail> {
    let alloc = rt.alloc();
    let words = words(alloc, "run")?;
    let due = hand_with_stores_queued_report(alloc)?;
    let mut stopped = 0;
    for k in 0..61u32 {
        let input = Vec::from_slice(alloc, HAND_WITH_STORES_QUEUED)?;
        let mut src = MemSource::new(input, CHUNK, vec![in alloc; k; 1]?);
        let mut out = MemSink::new(alloc, Vec::new(alloc));
        let status = dmasim(alloc, &words, &mut src, &mut out);
        if status == 0 {
            assert_eq!(rt; out.bytes(), due.as_bytes());
        } else {
            assert_eq!(rt; status, 4);
            assert_eq!(rt; k, stopped);
            assert!(rt; out.bytes().is_empty());
            stopped += 1;
        }
    }
    // A read for each chunk, and one that tells the end.
    let chunks = HAND_WITH_STORES_QUEUED.len().div_ceil(CHUNK);
    assert_eq!(rt; Some(stopped as usize), chunks.checked_add(1));
    Ok(())
}

#[test]
fn std_streams(rt: HostRuntime) -> Result<(), Fail> {
    let alloc = rt.alloc();
    let words = words(alloc, "run")?;
    let mut src = StdSource::new(EMPTY_SCRIPT);
    let mut text = Vec::new(alloc);
    {
        let mut out = StdSink::new(&mut text);
        assert_eq!(rt; dmasim(alloc, &words, &mut src, &mut out), 0);
    }
    assert_eq!(rt;
        text.as_slice(),
        b"buf 0 0708\nend events 0 touches 0\n".as_slice()
    );
    Ok(())
}
