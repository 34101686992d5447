//! The operations that a hart is given, one at a time.

use nc_env::CboOp;
use nc_num::{Block, Bytes, ChanNo, HartNo, Label, MemType, Span};

/// The bytes of a store.
#[derive(Clone, Copy, Debug, PartialEq, Eq)]
pub enum Payload {
    /// These bytes, as many as the store's span has.
    Given(Bytes),
    /// The bytes of the hart's last load.
    Last,
}

/// The target of an IO store.
#[derive(Clone, Copy, Debug, PartialEq, Eq)]
pub enum IoTarget {
    /// A register of a DMA channel.
    Reg {
        /// The channel.
        chan: ChanNo,
        /// The register's offset, in bytes.
        off: u16,
        /// The access's width, in bytes.
        width: u8,
        /// The value that is stored.
        value: u64,
    },
    /// The mailbox of a buffer, which is handed to a hart.
    Mail {
        /// The index of the buffer.
        buf: u8,
        /// The hart that may take it.
        to: HartNo,
    },
    /// An ownership token: when it drains, parts of a mapping become the device's. This project's own.
    Lend {
        /// The label of the mapping.
        label: Label,
        /// The index of the first part.
        first: u8,
        /// The number of parts.
        count: u8,
    },
}

/// One operation of a hart. FENCE sets have the bits I 8, O 4, R 2 and W 1 (RISC-V FENCE).
#[derive(Clone, Copy, Debug, PartialEq, Eq)]
pub enum HartOp {
    /// A load of one piece.
    Load {
        /// The places that are read.
        span: Span,
        /// The type of their page.
        kind: MemType,
    },
    /// A store of one piece.
    Store {
        /// The places that are written.
        span: Span,
        /// The type of their page.
        kind: MemType,
        /// The bytes that are written.
        bytes: Payload,
    },
    /// A cache operation, by its effect.
    Cbo {
        /// The operation that is performed, which for an invalidate may be a flush.
        op: CboOp,
        /// The block that it names.
        block: Block,
    },
    /// A fence.
    Fence {
        /// The predecessor set.
        pred: u8,
        /// The successor set.
        succ: u8,
    },
    /// A load of a channel's register.
    IoLoad {
        /// The channel.
        chan: ChanNo,
        /// The register's offset, in bytes.
        off: u16,
        /// The access's width, in bytes.
        width: u8,
    },
    /// A store to a register or a mailbox, or an ownership token.
    IoStore(IoTarget),
    /// A fence that does not wait: a marker in the store queue.
    Mark {
        /// The predecessor set.
        pred: u8,
        /// The successor set.
        succ: u8,
    },
}
