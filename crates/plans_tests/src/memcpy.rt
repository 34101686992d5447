//! What no clause says: a copy between a bounced source and a direct destination, worked by hand.

use crate::fixtures;
use nc_env::CboOp;
use nc_memcpy::{CopyStep, copy_plan, transfer_plan};
use nc_num::{ChanNo, Dir, Span};
use nc_plan::{Effects, HartOp, IoTarget, Part};

fn cbo(op: CboOp, block: u32) -> CopyStep {
    CopyStep::Op(fixtures::cbo(op, block))
}

fn full() -> CopyStep {
    CopyStep::Op(fixtures::full())
}

fn load(at: u32, len: u32) -> CopyStep {
    CopyStep::Op(fixtures::load(at, len))
}

fn store(at: u32, len: u32) -> CopyStep {
    CopyStep::Op(fixtures::store(at, len))
}

fn reg(off: u16, width: u8, value: u64) -> CopyStep {
    CopyStep::Op(HartOp::IoStore(IoTarget::Reg {
        chan: ChanNo(2),
        off,
        width,
        value,
    }))
}

#[test]
fn from_a_slot_to_whole_blocks(rt: HostRuntime) {
    let e = Effects {
        clean: Ok(CboOp::Clean),
        flush: Ok(CboOp::Flush),
        inval: Ok(CboOp::Inval),
        zero: Ok(CboOp::Zero),
    };
    // the source ends past the channel's reach, so it bounces
    let src = Part {
        buffer: Span { at: 65472, len: 64 },
        device: Span { at: 32768, len: 64 },
        dir: Dir::ToDev,
    };
    let two = Span { at: 8192, len: 64 };
    let dst = Part {
        buffer: two,
        device: two,
        dir: Dir::FromDev,
    };
    let Ok(plan) = copy_plan(rt.alloc(), &e, 32, ChanNo(2), src, dst, 0x6600_0000) else {
        assert!(rt; false);
        return;
    };
    let copied = [
        load(65472, 8),
        store(32768, 8),
        load(65480, 8),
        store(32776, 8),
    ];
    assert!(rt; plan.get(..4) == Some(copied.as_slice()));
    assert_eq!(rt; plan.get(15), Some(&store(32824, 8)));
    let rest = [
        cbo(CboOp::Clean, 1024),
        cbo(CboOp::Clean, 1025),
        full(),
        cbo(CboOp::Flush, 256),
        cbo(CboOp::Flush, 257),
        full(),
        reg(0x004, 4, 0x6600_0000),
        reg(0x008, 8, 64),
        reg(0x010, 8, 0x8000_2000),
        reg(0x018, 8, 0x8000_8000),
        reg(0x000, 4, 3),
        CopyStep::Poll,
        reg(0x000, 4, 0),
        cbo(CboOp::Inval, 256),
        cbo(CboOp::Inval, 257),
        full(),
        full(),
    ];
    assert!(rt; plan.get(16..) == Some(rest.as_slice()));
    let Ok(transfer) = transfer_plan(rt.alloc(), ChanNo(2), src, dst, 0x6600_0000) else {
        assert!(rt; false);
        return;
    };
    assert!(rt; rest.get(6..13) == Some(transfer.as_slice()));
}
