//! The lots of a hart: what it has mapped, and who has it now.

use nc_num::{ChanNo, Label};
use nc_sg::SgList;

/// How a lot was made (Linux DMA API).
#[derive(Clone, Copy, Debug, PartialEq, Eq)]
pub enum Kind {
    /// By `dma_map_single`.
    Single,
    /// By `dma_map_sg`.
    List,
    /// By `dma_alloc_coherent`.
    Area,
    /// It is one end of a copy by a channel. This project's own.
    Copy,
}

/// Who has a lot: the owner of its bytes, except for bytes of single mappings. This project's own.
#[derive(Clone, Copy, Debug, PartialEq, Eq)]
pub enum Side {
    /// It is not lent yet, and may need slots. Its bytes are the hart's own.
    Wanted,
    /// The plan that lends it to its channel is under way.
    Lending,
    /// The channel has it.
    Device,
    /// The plan that takes it back is under way.
    Returning,
    /// It is synced for the hart.
    Synced,
    /// It is an area that the hart has.
    Own,
}

/// The name of a lot among those of its hart.
#[derive(Clone, Copy, Debug, PartialEq, Eq)]
pub struct LotId {
    /// Its label: 0 to 999, or 1000 for the ends of a copy.
    pub label: Label,
    /// The index of its first entry: 1 for a copy's destination, and else 0.
    pub first: u8,
}

/// Ranges of a hart that are lent together: a single mapping, a scatter list, a coherent area, or one end of a copy.
#[derive(Drop)]
pub struct Lot {
    /// Its name.
    pub id: LotId,
    /// How it was made.
    pub kind: Kind,
    /// The channel that may use it.
    pub chan: ChanNo,
    /// Its ranges, with their direction, and the slots of those that bounce: one range, except in a scatter list.
    pub list: SgList,
    /// Who has it.
    pub side: Side,
}
