//! What no clause says: that the rules are the ones meant, on queues that were worked by hand.

ghost use Rattle.std.specs.Prelude.{◌≡◌};
ghost use Rattle.nc_queue.specs.Entries.{Fits};

use nc_env::CboOp;
use nc_num::{Block, Bytes, ChanNo, HartNo, Label, MemType, Place, Span};
use nc_queue::{Entry, Full, Queue, drain_law, marker_law, output_law, push_law};
use std::process::Abort;

fn store(at: u32, kind: MemType) -> Entry
    ensures { Fits 64 result }
{
    Entry::Store {
        span: Span { at, len: 1 },
        bytes: Bytes::of(b"\x07"),
        kind,
    }
}

fn put(rt: &impl Abort, queue: &mut Queue, e: Entry)
    requires size { queue.old.size ≡ 64 }
    requires fits { Fits 64 e }
    ensures { queue.new.size ≡ 64 }
{
    assert_eq!(rt; queue.push(e), Ok(()));
}

#[test]
fn queue_marks(rt: HostRuntime) {
    let mut queue = Queue::new(64);
    put(&rt, &mut queue, store(0, MemType::Pma));
    put(&rt, &mut queue, store(64, MemType::Pma));
    put(&rt, &mut queue, Entry::Mark { pred: 1, succ: 4 });
    put(
        &rt,
        &mut queue,
        Entry::Mail {
            buf: 0,
            to: HartNo(1),
        },
    );
    assert!(rt; queue.may_drain(0) && queue.may_drain(1));
    assert!(rt; !queue.may_drain(2) && !queue.may_drain(3));
    assert_eq!(rt; queue.drain(3), None);
    assert_eq!(rt; queue.drain(1), Some(store(64, MemType::Pma)));
    assert!(rt; queue.may_drain(0) && !queue.may_drain(1) && !queue.may_drain(2));
    assert_eq!(rt; queue.drain(0), Some(store(0, MemType::Pma)));
    assert!(rt; queue.may_drain(0) && queue.may_drain(1));
    assert_eq!(rt; queue.len(), 2);
}

fn one_of_each_kind(rt: &impl Abort) -> Queue
    ensures { result.size ≡ 64 }
{
    let mut queue = Queue::new(64);
    put(
        rt,
        &mut queue,
        Entry::Reg {
            chan: ChanNo(0),
            off: 0,
            width: 4,
            value: 1,
        },
    );
    put(
        rt,
        &mut queue,
        Entry::Mail {
            buf: 0,
            to: HartNo(1),
        },
    );
    put(rt, &mut queue, store(0, MemType::Io));
    put(
        rt,
        &mut queue,
        Entry::Cbo {
            block: Block(0),
            op: CboOp::Clean,
        },
    );
    put(
        rt,
        &mut queue,
        Entry::Lend {
            label: Label(5),
            first: 0,
            count: 1,
        },
    );
    put(rt, &mut queue, Entry::Mark { pred: 1, succ: 1 });
    put(rt, &mut queue, store(128, MemType::Nc));
    put(
        rt,
        &mut queue,
        Entry::Cbo {
            block: Block(3),
            op: CboOp::Zero,
        },
    );
    queue
}

#[test]
fn classes_and_bytes(rt: HostRuntime) {
    let queue = one_of_each_kind(&rt);
    assert!(rt; queue.holds(4) && queue.holds(1) && !queue.holds(10));
    assert!(rt; queue.lends(Label(5)) && !queue.lends(Label(6)));
    assert!(rt; !queue.may_load(MemType::Io) && queue.may_load(MemType::Pma));
    assert_eq!(rt; queue.get(6), Some(store(128, MemType::Nc)));
    assert_eq!(rt; queue.get(8), None);
    assert_eq!(rt; queue.newest(Place(0)), Some(2));
    assert_eq!(rt; queue.newest(Place(1)), None);
    assert_eq!(rt; queue.newest(Place(255)), Some(7));
    assert_eq!(rt; queue.newest(Place(256)), None);
}

#[test]
fn one_at_a_time(rt: HostRuntime) {
    push_law();
    drain_law();
    marker_law();
    output_law();
    let mut queue = one_of_each_kind(&rt);
    let ninth = store(0, MemType::Pma);
    assert_eq!(rt; queue.push(ninth), Err(Full(ninth)));
    for i in 1..8 {
        assert!(rt; !queue.may_drain(i), "entry {i}");
    }
    assert!(rt; queue.drain(0).is_some());
    assert!(rt; queue.drain(0).is_some());
    assert!(rt; queue.may_drain(0) && !queue.may_drain(1) && !queue.may_drain(2));
    assert!(rt; queue.drain(0).is_some());
    assert!(rt; queue.may_drain(0) && queue.may_drain(1) && !queue.may_drain(2));
    put(&rt, &mut queue, store(128, MemType::Pma));
    assert_eq!(rt; queue.newest(Place(128)), Some(5));
}
