//! What no clause says: a list of three entries of which two merge and one bounces, worked by hand.

use nc_num::{Dir, Span};
use nc_plan::Part;
use nc_sg::{Entry, SegList, Segment, SgList, device, segments_keep_the_bytes};

/// The entries: two that touch, and one that begins and ends inside a block.
const SPANS: [Span; 3] = [
    Span { at: 4096, len: 64 },
    Span { at: 4160, len: 128 },
    Span { at: 8195, len: 10 },
];

#[test]
fn two_merge_and_one_bounces(rt: HostRuntime) {
    segments_keep_the_bytes();
    let Ok(mut list) = SgList::new(rt.alloc(), &SPANS, Dir::FromDev, 64, 65536) else {
        assert!(rt; false);
        return;
    };
    assert_eq!(rt; list.next_bounced(), Some(2));
    list.got(1);
    assert_eq!(rt; list.next_bounced(), None);
    let bounced = Entry {
        span: SPANS[2],
        bounced: true,
        slot: Some(1),
    };
    assert!(rt; list.entries().get(2) == Some(&bounced));
    let lent = Span { at: 34819, len: 10 };
    assert!(rt; device(32768, &bounced) == lent);
    let Ok(parts) = list.parts(rt.alloc(), 32768) else {
        assert!(rt; false);
        return;
    };
    let wanted = [
        part(SPANS[0], SPANS[0]),
        part(SPANS[1], SPANS[1]),
        part(SPANS[2], lent),
    ];
    assert!(rt; parts.as_slice() == wanted.as_slice());
    let merged = [segment(0x8000_1000, 192), segment(0x8000_8803, 10)];
    let Ok(segments) = list.segments(rt.alloc(), 32768) else {
        assert!(rt; false);
        return;
    };
    assert!(rt; segments.as_slice() == merged.as_slice());
    assert!(rt; list.seg_list(32768) == SegList::of(&merged));
    assert_eq!(rt; list.segment(32768, 1), Some(merged[1]));
    assert_eq!(rt; list.segment(32768, 2), None);
}

#[test]
fn slots_are_unwound_and_forgotten(rt: HostRuntime) {
    let Ok(mut list) = SgList::new(rt.alloc(), &SPANS, Dir::FromDev, 64, 65536) else {
        assert!(rt; false);
        return;
    };
    assert_eq!(rt; list.next_bounced(), Some(2));
    list.got(1);
    assert_eq!(rt; list.next_bounced(), None);
    let Ok(slots) = list.unwind() else {
        assert!(rt; false);
        return;
    };
    assert!(rt; slots.as_slice() == [1].as_slice());
    assert_eq!(rt; list.next_bounced(), Some(2));
    list.got(0);
    assert_eq!(rt; list.next_bounced(), None);
    list.forget();
    assert_eq!(rt; list.next_bounced(), Some(2));
}

/// Makes the part of an entry that a channel sees by this range.
fn part(buffer: Span, device: Span) -> Part {
    Part {
        buffer,
        device,
        dir: Dir::FromDev,
    }
}

/// Makes a segment at this place on the bus.
fn segment(bus: u32, len: u32) -> Segment {
    Segment { bus, len }
}
