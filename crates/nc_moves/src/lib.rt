//! What a step of a driver changes beside the driver and the machine: owners, grants, slots and pages; and the answer
//! that it gives.
//!
//! The contract for the crates above: the moves of a step are nc_rules' `Moved`, by `moves_view`. Each list takes
//! memory only for what it holds, so a step that moves nothing takes none. The driver makes moves; the world carries
//! them out.
#![tactic(auto)]

mod entries;
mod lists;
mod moves;
mod sides;

pub use lists::{GrantList, IdList, SlotList, TransferList};
pub use moves::Moves;
