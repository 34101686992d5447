//! The owners of a byte, who makes an access, and what a mapping grants to a channel.

use nc_num::{ChanNo, Dir, HartNo, MapId, Span};

/// The owner of a byte of RAM.
///
/// A streaming mapping belongs to the device from map to unmap, except between a sync for the CPU and the next sync for
/// the device (Linux DMA API). The owners between two of these states, and the passing of a buffer between harts, are
/// this project's own.
#[derive(Clone, Copy, Debug, PartialEq, Eq)]
pub enum Owner {
    /// A hart, which may read and write it.
    Thread(HartNo),
    /// On its way from the first hart to the second: nobody may use it.
    Passing(HartNo, HartNo),
    /// The plan that lends it to the device is under way: nobody may use it.
    Lending(MapId),
    /// A mapping, whose channel may use it through the device range, by the direction of the mapping.
    Device(MapId),
    /// The plan that takes it back from the device is under way: nobody may use it.
    Returning(MapId),
    /// A mapping synced for the CPU: its hart may read it, and write it unless the direction is `FromDev`.
    Synced(MapId),
    /// It belongs to no buffer: nobody may use it.
    Pool,
}

/// The maker of an access.
#[derive(Clone, Copy, Debug, PartialEq, Eq)]
pub enum Actor {
    /// A hart, by its script.
    Hart(HartNo),
    /// A channel, by a transaction.
    Chan(ChanNo),
}

/// The kind of an access.
#[derive(Clone, Copy, Debug, PartialEq, Eq)]
pub enum Access {
    /// A read.
    Read,
    /// A write.
    Write,
}

/// What a mapping lets its channel use.
#[derive(Clone, Copy, Debug, PartialEq, Eq)]
pub struct Grant {
    /// The mapping.
    pub id: MapId,
    /// The bytes that are mapped.
    pub buffer: Span,
    /// The places that the channel uses for them: the same range, or as many bytes of a bounce slot.
    pub device: Span,
    /// The direction of the mapping; `Both` for a coherent area.
    pub dir: Dir,
    /// The channel.
    pub chan: ChanNo,
}
