//! The entries of a store queue.

ghost use Rattle.std.specs.Prelude.{◌≡◌, is_some};
ghost use Rattle.nc_num.specs.Sizes.{IsBlockSize};
ghost use Rattle.nc_queue.specs.Entries.{is_io, is_w, is_o, in_set, block_of, has_block, op_gives, entry_gives, lends_label};

use nc_env::CboOp;
use nc_num::{Block, Bytes, ChanNo, HartNo, Label, MemType, Place, Span, block_of};

/// An entry: what a hart has issued and others do not see yet. The kinds and their classes are this project's own,
/// after the predecessor and successor sets of the RISC-V FENCE.
#[derive(Clone, Copy, Debug, PartialEq, Eq)]
pub enum Entry {
    /// A store of at most 8 bytes in one block.
    Store {
        /// The places that are written.
        span: Span,
        /// The bytes, as many as the span has.
        bytes: Bytes,
        /// The type of the page that the store went through.
        kind: MemType,
    },
    /// A cache operation on a block.
    Cbo {
        /// The block that it names.
        block: Block,
        /// The operation that is performed, which for an invalidate may be a flush.
        op: CboOp,
    },
    /// A store to a register of a DMA channel.
    Reg {
        /// The channel.
        chan: ChanNo,
        /// The register's offset, in bytes.
        off: u16,
        /// The access's width, in bytes.
        width: u8,
        /// The value that is stored.
        value: u64,
    },
    /// A mailbox store, which hands a buffer to a hart.
    Mail {
        /// The index of the buffer.
        buf: u8,
        /// The hart that may take it.
        to: HartNo,
    },
    /// An ownership token: when it drains, parts of a mapping become the device's.
    Lend {
        /// The label of the mapping.
        label: Label,
        /// The index of the first part.
        first: u8,
        /// The number of parts.
        count: u8,
    },
    /// A fence marker: later entries of a class in `succ` wait for earlier ones of a class in `pred`.
    Mark {
        /// The predecessor set, by the bits I 8, O 4, R 2 and W 1.
        pred: u8,
        /// The successor set, by the same bits.
        succ: u8,
    },
}

/// The error of a push into a full queue, with the entry that found no room.
#[derive(Clone, Copy, Debug, PartialEq, Eq)]
pub struct Full(pub Entry);

/// Returns whether an entry is of class W.
fn is_w(e: &Entry) -> bool
    ensures { result ≡ is_w e.now }
{
    match e {
        Entry::Store { .. } | Entry::Cbo { .. } => true,
        Entry::Reg { .. } | Entry::Mail { .. } | Entry::Lend { .. } | Entry::Mark { .. } => false,
    }
}

/// Returns whether an entry is of class O.
pub(crate) fn is_o(e: &Entry) -> bool
    ensures { result ≡ is_o e.now }
{
    match e {
        Entry::Store { kind, .. } => is_io(*kind),
        Entry::Reg { .. } | Entry::Mail { .. } | Entry::Lend { .. } => true,
        Entry::Cbo { .. } | Entry::Mark { .. } => false,
    }
}

/// Returns whether a memory type is IO.
pub(crate) fn is_io(kind: MemType) -> bool
    ensures { result ≡ is_io kind }
{
    match kind {
        MemType::Io => true,
        MemType::Pma | MemType::Nc => false,
    }
}

/// Returns whether an entry is of a class in a FENCE set, whose bits 0 and 2 stand for W and O.
pub(crate) fn in_set(e: &Entry, set: u8) -> bool
    ensures { result ≡ in_set e.now set }
{
    (is_w(e) && set & 1 == 1) || (is_o(e) && set >> 2 & 1 == 1)
}

/// Returns the block of an entry, where it has one.
pub(crate) fn entry_block(e: &Entry, size: u32) -> Option<u32>
    requires { IsBlockSize size }
    ensures { result ≡ block_of size e.now }
{
    match e {
        Entry::Store { span, .. } => Some(block_of(Place(span.at), size).0),
        Entry::Cbo { block, .. } => Some(block.0),
        Entry::Reg { .. } | Entry::Mail { .. } | Entry::Lend { .. } | Entry::Mark { .. } => None,
    }
}

/// Returns whether an entry has this block.
pub(crate) fn has_block(e: &Entry, block: u32, size: u32) -> bool
    requires { IsBlockSize size }
    ensures { result ≡ has_block size block e.now }
{
    match entry_block(e, size) {
        Some(own) => own == block,
        None => false,
    }
}

/// Returns whether an entry gives the byte of a place: a store over it, or a zero of its block.
pub(crate) fn gives_byte(e: &Entry, x: u32, size: u32) -> bool
    requires { IsBlockSize size }
    ensures { result ≡ is_some (entry_gives size e.now x) }
{
    match e {
        Entry::Store { span, .. } => span.at <= x && x - span.at < span.len,
        Entry::Cbo { block, op } => op_gives(*op, *block, x, size),
        Entry::Reg { .. } | Entry::Mail { .. } | Entry::Lend { .. } | Entry::Mark { .. } => false,
    }
}

/// Returns whether a cache operation gives the byte of a place: a zero of its block.
fn op_gives(op: CboOp, block: Block, x: u32, size: u32) -> bool
    requires { IsBlockSize size }
    ensures { result ≡ is_some (op_gives size op block.0 x) }
{
    match op {
        CboOp::Zero => block_of(Place(x), size).0 == block.0,
        CboOp::Clean | CboOp::Flush | CboOp::Inval => false,
    }
}

/// Returns whether an entry is a token of the label.
pub(crate) fn lends_label(e: &Entry, label: Label) -> bool
    ensures { result ≡ lends_label label.0 e.now }
{
    match e {
        Entry::Lend { label: of, .. } => of.0 == label.0,
        Entry::Store { .. }
        | Entry::Cbo { .. }
        | Entry::Reg { .. }
        | Entry::Mail { .. }
        | Entry::Mark { .. } => false,
    }
}
