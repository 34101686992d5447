//! Fixtures: what is enabled, and the operations that plans consist of.

use nc_env::CboOp;
use nc_num::{Block, MemType, Span};
use nc_plan::{Effects, HartOp, Payload};

/// Returns the effects of a hart with every cache operation enabled.
pub fn enabled() -> Effects {
    Effects {
        clean: Ok(CboOp::Clean),
        flush: Ok(CboOp::Flush),
        inval: Ok(CboOp::Inval),
        zero: Ok(CboOp::Zero),
    }
}

/// Makes a cache operation on block `block`.
pub fn cbo(op: CboOp, block: u32) -> HartOp {
    HartOp::Cbo {
        op,
        block: Block(block),
    }
}

/// Makes the full fence.
pub fn full() -> HartOp {
    HartOp::Fence { pred: 15, succ: 15 }
}

/// Makes a load of `len` bytes of cached memory from place `at` on.
pub fn load(at: u32, len: u32) -> HartOp {
    HartOp::Load {
        span: Span { at, len },
        kind: MemType::Pma,
    }
}

/// Makes a store of the bytes that were loaded last to `len` bytes of cached memory from place `at` on.
pub fn store(at: u32, len: u32) -> HartOp {
    HartOp::Store {
        span: Span { at, len },
        kind: MemType::Pma,
        bytes: Payload::Last,
    }
}
