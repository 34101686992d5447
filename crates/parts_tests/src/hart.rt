//! What no clause says: when operations may be issued and what they leave in the queue, worked by hand.

ghost use Rattle.nc_hart.specs.Issue.{OpFits};

use nc_env::CboOp;
use nc_hart::Hart;
use nc_num::{Block, Bytes, ChanNo, HartNo, Label, MemType, Span};
use nc_plan::{HartOp, IoTarget, Payload};
use nc_queue::Entry;
use std::process::Abort;

const PIECE: Span = Span { at: 8, len: 2 };

fn give(rt: &impl Abort, hart: &mut Hart, op: HartOp)
    requires { OpFits hart.old.last op }
{
    assert!(rt; hart.can_issue(&op));
    hart.issue(op);
}

fn give_fence(rt: &impl Abort, hart: &mut Hart, pred: u8, succ: u8) {
    give(rt, hart, HartOp::Fence { pred, succ });
}

fn store(kind: MemType) -> HartOp {
    HartOp::Store {
        span: PIECE,
        kind,
        bytes: Payload::Given(Bytes::of(b"\x05\x06")),
    }
}

fn give_store(rt: &impl Abort, hart: &mut Hart, kind: MemType) {
    let bytes = Payload::Given(Bytes::of(b"\x05\x06"));
    give(
        rt,
        hart,
        HartOp::Store {
            span: PIECE,
            kind,
            bytes,
        },
    );
}

fn fence(pred: u8, succ: u8) -> HartOp {
    HartOp::Fence { pred, succ }
}

#[test]
fn fence_then_load(rt: HostRuntime) {
    let mut hart = Hart::new(64);
    let io_load = HartOp::Load {
        span: PIECE,
        kind: MemType::Io,
    };
    give_fence(&rt, &mut hart, 1, 2);
    assert!(rt; *hart.last() == Bytes::of(b""));
    hart.loaded(Bytes::of(b"\x07\x08"));
    assert!(rt; *hart.last() == Bytes::of(b"\x07\x08"));
    give(
        &rt,
        &mut hart,
        HartOp::Store {
            span: PIECE,
            kind: MemType::Pma,
            bytes: Payload::Last,
        },
    );
    assert!(rt; hart.can_issue(&io_load) && !hart.can_issue(&fence(1, 2)));
    assert!(rt; hart.can_issue(&fence(4, 2)) && hart.can_issue(&fence(1, 1)));
    let stored = Entry::Store {
        span: PIECE,
        bytes: Bytes::of(b"\x07\x08"),
        kind: MemType::Pma,
    };
    assert_eq!(rt; hart.drain(0), Some(stored));
    give_fence(&rt, &mut hart, 1, 2);
    assert_eq!(rt; hart.queue().len(), 0);
}

fn filled(rt: &impl Abort) -> Hart {
    let mut hart = Hart::new(64);
    give(rt, &mut hart, HartOp::Mark { pred: 15, succ: 4 });
    give_fence(rt, &mut hart, 9, 5);
    give_fence(rt, &mut hart, 2, 1);
    give(
        rt,
        &mut hart,
        HartOp::Cbo {
            op: CboOp::Clean,
            block: Block(2),
        },
    );
    give_store(rt, &mut hart, MemType::Nc);
    let reg = IoTarget::Reg {
        chan: ChanNo(1),
        off: 8,
        width: 8,
        value: 64,
    };
    give(rt, &mut hart, HartOp::IoStore(reg));
    give(
        rt,
        &mut hart,
        HartOp::IoStore(IoTarget::Mail {
            buf: 3,
            to: HartNo(1),
        }),
    );
    let token = IoTarget::Lend {
        label: Label(5),
        first: 0,
        count: 2,
    };
    give(rt, &mut hart, HartOp::IoStore(token));
    give_store(rt, &mut hart, MemType::Io);
    hart
}

#[test]
fn markers_are_cut_and_room_ends(rt: HostRuntime) {
    let hart = filled(&rt);
    let queue = hart.queue();
    assert_eq!(rt; queue.get(0), Some(Entry::Mark { pred: 5, succ: 4 }));
    assert_eq!(rt; queue.get(1), Some(Entry::Mark { pred: 1, succ: 5 }));
    assert_eq!(rt;
        queue.get(2),
        Some(Entry::Cbo {
            block: Block(2),
            op: CboOp::Clean
        })
    );
    assert_eq!(rt;
        queue.get(5),
        Some(Entry::Mail {
            buf: 3,
            to: HartNo(1)
        })
    );
    assert_eq!(rt;
        queue.get(6),
        Some(Entry::Lend {
            label: Label(5),
            first: 0,
            count: 2
        })
    );
    assert_eq!(rt; queue.len(), 8);
    assert!(rt; !hart.can_issue(&store(MemType::Pma)) && !hart.can_issue(&fence(1, 4)));
    assert!(rt; hart.can_issue(&fence(2, 1)) && !hart.can_issue(&fence(4, 8)));
    let load = HartOp::Load {
        span: PIECE,
        kind: MemType::Pma,
    };
    let io_load = HartOp::IoLoad {
        chan: ChanNo(1),
        off: 0,
        width: 4,
    };
    assert!(rt; hart.can_issue(&load) && !hart.can_issue(&io_load));
}
