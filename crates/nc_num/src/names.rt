//! The names of those who act and of what they act on, and the error of memory that runs out.

ghost use Rattle.std.specs.Prelude.{◌≡◌};

use std::alloc::{AllocError, AllocFailed};

/// The index of a hart, 0 to 3.
#[derive(Clone, Copy, Debug, PartialEq, Eq, PartialOrd, Ord)]
pub struct HartNo(pub u8);

/// The index of a DMA channel, 0 to 3.
#[derive(Clone, Copy, Debug, PartialEq, Eq, PartialOrd, Ord)]
pub struct ChanNo(pub u8);

/// The label under which a hart's script names a mapping, a scatter list or a coherent area, 0 to 999; the label
/// 1000 is a copy's own.
#[derive(Clone, Copy, Debug, PartialEq, Eq, PartialOrd, Ord)]
pub struct Label(pub u32);

/// The name of a mapping: its hart, the hart's label, and the index of the entry under that label. Entries of a scatter
/// list are counted from 0.
#[derive(Clone, Copy, Debug, PartialEq, Eq, PartialOrd, Ord)]
pub struct MapId {
    /// The hart that mapped it.
    pub hart: HartNo,
    /// The label that the hart gave it.
    pub label: Label,
    /// The index of the entry: 0 except in a scatter list, and 1 for the destination of a copy.
    pub entry: u8,
}

/// The direction of a mapping (Linux DMA API, `enum dma_data_direction`, whose numbers 0, 1 and 2 these are).
#[derive(Clone, Copy, Debug, PartialEq, Eq)]
pub enum Dir {
    /// `DMA_BIDIRECTIONAL`: the device may read and write.
    Both,
    /// `DMA_TO_DEVICE`: the device may read.
    ToDev,
    /// `DMA_FROM_DEVICE`: the device may write.
    FromDev,
}

/// The type of an access to memory, by the page's PBMT field (RISC-V Privileged Architecture, Svpbmt).
#[derive(Clone, Copy, Debug, PartialEq, Eq)]
pub enum MemType {
    /// Main memory, accessed through the caches.
    Pma,
    /// Main memory, not cached.
    Nc,
    /// Main memory, not cached and ordered as I/O.
    Io,
}

/// The error of a call for which memory ran out. The call has left everything unchanged.
#[derive(Clone, Copy, Debug, PartialEq, Eq)]
pub struct NoMemory;

impl From<AllocError> for NoMemory {
    fn from(_e: AllocError) -> NoMemory {
        NoMemory
    }
}

impl<T: Drop> From<AllocFailed<T>> for NoMemory {
    fn from(_e: AllocFailed<T>) -> NoMemory {
        NoMemory
    }
}
