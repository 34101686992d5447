//! Scatter lists (Linux DMA API: `dma_map_sg`): which entries bounce, which slots they hold, the parts that are lent,
//! and the segments that the channel sees.
//!
//! The contract for the crates above: a list keeps for each entry the slot that it holds, its parts and segments exist
//! once each entry that bounces has a slot, and `unwind` returns all slots. Its segments are the device ranges of its
//! entries, in order, where neighbouring direct entries are one. The driver stands above.
#![tactic(auto)]

mod list;

pub use list::{Entry, SgList, device, segments_keep_the_bytes};
pub use nc_plan::{SegList, Segment};
