//! What no clause says: each kind of stream once, with ample memory.

use nc_io::{
    Failed, MemSink, MemSource, Sink, Source, StdSink, StdSource, Stop, SureSink, SureSource,
    write_all,
};
use std::test::Fail;

#[test]
fn sources_give_their_bytes(rt: HostRuntime) -> Result<(), Fail> {
    let alloc = rt.alloc();
    let mut buf = [0u8; 4];
    let mut sure = SureSource::new(Vec::from_slice(alloc, b"abc")?, 2);
    assert_eq!(rt; sure.read(&mut buf), Ok(2));
    assert_eq!(rt; buf, [97, 98, 0, 0]);
    assert_eq!(rt; sure.read(&mut buf), Ok(1));
    assert_eq!(rt; buf, [99, 98, 0, 0]);
    assert_eq!(rt; sure.read(&mut buf), Ok(0));

    let mut failing = MemSource::new(Vec::from_slice(alloc, b"abc")?, 2, vec![in alloc; 1]?);
    assert_eq!(rt; failing.read(&mut buf), Ok(2));
    assert_eq!(rt; failing.read(&mut buf), Err(Failed));
    assert_eq!(rt; failing.read(&mut buf), Ok(1));
    assert_eq!(rt; buf[0], 99);

    let text: &[u8] = b"abc";
    let mut reader = StdSource::new(text);
    assert_eq!(rt; reader.read(&mut buf), Ok(3));
    assert_eq!(rt; buf, [97, 98, 99, 0]);
    assert_eq!(rt; reader.read(&mut buf), Ok(0));
    Ok(())
}

#[test]
fn sinks_hold_what_is_written(rt: HostRuntime) -> Result<(), Fail> {
    let alloc = rt.alloc();
    let mut sure = SureSink::new(alloc);
    assert_eq!(rt; sure.write(b"ab"), Ok(2));
    assert_eq!(rt; write_all(&mut sure, b"cd"), Ok(()));
    assert_eq!(rt; sure.bytes(), b"abcd".as_slice());

    let mut failing = MemSink::new(alloc, vec![in alloc; 1]?);
    assert_eq!(rt; write_all(&mut failing, b"ab"), Ok(()));
    assert_eq!(rt; write_all(&mut failing, b"cd"), Err(Stop::Failed));
    assert_eq!(rt; write_all(&mut failing, b"ef"), Ok(()));
    assert_eq!(rt; failing.bytes(), b"abef".as_slice());

    let mut text = Vec::new(alloc);
    {
        let mut writer = StdSink::new(&mut text);
        assert_eq!(rt; write_all(&mut writer, b"abc"), Ok(()));
    }
    assert_eq!(rt; text.as_slice(), b"abc".as_slice());
    Ok(())
}
