//! The operations of a hart's script. All of them are this project's own; the calls that they stand for are those of
//! the Linux DMA API and the cache-block operations of RISC-V CMO 1.0.

ghost use Rattle.std.specs.Prelude.{◌≡◌, ◌<◌, All, IfOk};

use nc_env::CboOp;
use nc_num::{ChanNo, Dir, HartNo, Label, NoMemory};
use std::marker::Model;

/// The memory that a load or a store names.
#[derive(Clone, Copy, Debug, PartialEq, Eq)]
pub enum Spot {
    /// The buffer of this index.
    Buffer(u8),
    /// The coherent area of this label.
    Area(Label),
    /// Virtual memory, where the offset is the address.
    Virtual,
}

/// The value that a channel's address register is set to.
#[derive(Clone, Copy, Debug, PartialEq, Eq)]
pub enum BusArg {
    /// This bus address.
    At(u64),
    /// The bus address of the mapping of this label.
    Map(Label),
    /// The bus address of the segment of this index, from 0, of the scatter list of this label.
    Segment(Label, u32),
    /// The bus address of the coherent area of this label.
    Area(Label),
}

/// An entry of a scatter list.
#[derive(Clone, Copy, Debug, PartialEq, Eq)]
pub struct SgEntry {
    /// The index of its buffer.
    pub buf: u8,
    /// Where it starts in the buffer, in bytes.
    pub off: u32,
    /// How many bytes it has.
    pub len: u32,
}

/// The entries of a scatter list, at most 16, in order.
#[derive(Clone, Debug, Drop)]
pub struct SgEntries {
    items: Vec<SgEntry>,
}

impl Model for SgEntries {
    ghost use Rattle.std.specs.Prelude.{List};
    ghost use Rattle.nc_ops.specs.declared.ops.SgEntry.{SgEntry};

    ghost Value = { List SgEntry };

    ghost view = { λ s. s.items.items };
}

impl SgEntries {
    /// Makes a scatter list's entries of these, in order.
    pub fn new(items: Vec<SgEntry>) -> SgEntries
        ensures { result ≡ items.items }
    {
        SgEntries { items }
    }

    /// Returns the entries, in order.
    pub fn as_slice(&self) -> &[SgEntry]
        ensures { result.now ≡ self.now }
    {
        &self.items
    }
}

/// The bytes that a store writes, at most 4,096.
#[derive(Clone, Debug, Drop)]
pub struct HexBytes {
    items: Vec<u8>,
}

impl Model for HexBytes {
    ghost use Rattle.std.specs.Prelude.{ℕ, List};

    ghost Value = { List ℕ };

    ghost view = { λ s. s.items.items };
}

impl HexBytes {
    /// Makes the bytes of a store of these, in order.
    pub fn new(items: Vec<u8>) -> HexBytes
        ensures value { result ≡ items.items }
        ensures bytes { All (λ b. b < 256) items.items }
    {
        HexBytes { items }
    }

    /// Returns the bytes, in order.
    pub fn as_slice(&self) -> &[u8]
        ensures { result.now ≡ self.now }
    {
        &self.items
    }
}

/// An operation of a hart's script. Offsets and lengths are in bytes; labels are 0 to 999, channels 0 to 3.
#[derive(Clone, Debug, Drop)]
pub enum Op {
    /// A load.
    Ld {
        /// What is loaded from.
        spot: Spot,
        /// The offset there.
        off: u32,
        /// How many bytes, at most 4,096.
        len: u32,
    },
    /// A store.
    St {
        /// What is stored to.
        spot: Spot,
        /// The offset there.
        off: u32,
        /// The bytes, at most 4,096.
        bytes: HexBytes,
    },
    /// A cache-block operation (RISC-V CMO 1.0) on the block of a buffer's byte, and a zero on its zeroed range.
    Cbo {
        /// The operation.
        op: CboOp,
        /// The buffer.
        buf: u8,
        /// The byte's offset there.
        off: u32,
    },
    /// A fence.
    Fence {
        /// The predecessor set, 0 to 15.
        pred: u8,
        /// The successor set, 0 to 15.
        succ: u8,
    },
    /// `dma_map_single` (Linux DMA API).
    Map {
        /// The label that the mapping gets.
        label: Label,
        /// The buffer.
        buf: u8,
        /// Where the mapping starts in the buffer.
        off: u32,
        /// How many bytes it has.
        len: u32,
        /// Its direction.
        dir: Dir,
        /// The channel that may use it.
        chan: ChanNo,
    },
    /// `dma_unmap_single` (Linux DMA API).
    Unmap(Label),
    /// `dma_sync_single_for_cpu` (Linux DMA API).
    ToCpu(Label),
    /// `dma_sync_single_for_device` (Linux DMA API).
    ToDev(Label),
    /// `dma_map_sg` (Linux DMA API).
    MapSg {
        /// The label that the list gets.
        label: Label,
        /// Its entries.
        entries: SgEntries,
        /// Its direction.
        dir: Dir,
        /// The channel that may use it.
        chan: ChanNo,
    },
    /// `dma_unmap_sg` (Linux DMA API).
    UnmapSg {
        /// The label of the list.
        label: Label,
        /// The number of entries that were mapped.
        count: u32,
    },
    /// `dma_alloc_coherent` (Linux DMA API).
    Calloc {
        /// The label that the area gets.
        label: Label,
        /// How many pages of 4,096 bytes, at most 64.
        pages: u32,
        /// The channel that may use it.
        chan: ChanNo,
    },
    /// The coherent area is given to the channel.
    Cgive(Label),
    /// The coherent area is taken back from the channel.
    Ctake(Label),
    /// `dma_free_coherent` (Linux DMA API).
    Cfree(Label),
    /// A buffer is passed to a hart.
    Hand {
        /// The buffer.
        buf: u8,
        /// The hart that gets it.
        to: HartNo,
    },
    /// A buffer that was passed is taken.
    Take(u8),
    /// The channel is claimed.
    Claim(ChanNo),
    /// The channel is released.
    Free(ChanNo),
    /// The channel's next transfer is set.
    Regs {
        /// The channel.
        chan: ChanNo,
        /// Where it reads.
        src: BusArg,
        /// Where it writes.
        dst: BusArg,
        /// How many bytes.
        len: u64,
        /// The value of NextConfig.
        cfg: u32,
    },
    /// The channel is started.
    Run(ChanNo),
    /// The channel is waited for.
    Poll(ChanNo),
    /// A register of the channel is read.
    Regr {
        /// The channel.
        chan: ChanNo,
        /// The register's offset, at most 4,095.
        off: u16,
        /// The width of the access, at most 8.
        width: u8,
    },
    /// A register of the channel is written.
    Regw {
        /// The channel.
        chan: ChanNo,
        /// The register's offset, at most 4,095.
        off: u16,
        /// The width of the access, at most 8.
        width: u8,
        /// What is written.
        value: u64,
    },
    /// A copy between two buffers by a channel, from mapping to unmapping.
    Copy {
        /// The channel.
        chan: ChanNo,
        /// The buffer that is read.
        src: u8,
        /// Where the source starts in it.
        src_off: u32,
        /// The buffer that is written.
        dst: u8,
        /// Where the destination starts in it.
        dst_off: u32,
        /// How many bytes.
        len: u32,
        /// The value of NextConfig, without the repeat bit.
        cfg: u32,
    },
}

impl Op {
    /// Returns a copy of the operation, with the bytes of a store or the entries of a list.
    ///
    /// # Errors
    ///
    /// `NoMemory` where memory runs out; then the operation is unchanged.
    pub fn try_clone(&self) -> Result<Op, NoMemory>
        ensures { IfOk result (λ o. o ≡ self.now) }
    {
        Ok(self.clone()?)
    }
}

/// The operations of a script, in order.
#[derive(Debug, Drop)]
pub struct Ops {
    items: Vec<Op>,
}

impl Model for Ops {
    ghost use Rattle.std.specs.Prelude.{List};
    ghost use Rattle.nc_ops.specs.declared.ops.Op.{Op};

    ghost Value = { List Op };

    ghost view = { λ s. s.items.items };
}

impl Ops {
    /// Makes a script of these operations, in order.
    pub fn new(items: Vec<Op>) -> Ops
        ensures { result ≡ items.items }
    {
        Ops { items }
    }

    /// Returns the operations, in order.
    pub fn as_slice(&self) -> &[Op]
        ensures { result.now ≡ self.now }
    {
        &self.items
    }
}
