//! The plan of a copy by a DMA channel: what a hart does from the claim of the channel to the copy's end.
//!
//! The contract for the crates above: `copy_plan` returns exactly the list of `specs/Copy.antt`, or memory runs out.
//! The source is lent, then the destination; the channel's registers are set, and it is started, polled and released;
//! then the destination and the source are taken back. `transfer_plan` returns the part in the middle. The driver
//! stands above.
#![tactic(auto)]

mod copy;

pub use copy::{CopyStep, copy_plan, transfer_plan};
