//! The control of a hart's script: what the hart does next, and what a step changes beside the machine.
//!
//! The contract for the crates above: a driver is nc_rules' `DriverState`. It begins as `first_driver`, `next` is
//! `next_of`, and `start`, `told`, `done` and `lent` leave the driver and the moves that the definitions of the same
//! names say. A step takes memory for new lots, for a plan and for what it moves; where memory runs out the driver is
//! unchanged. The world stands above: it asks what comes next, has the machine do it, and carries out the moves.
#![tactic(auto)]

mod course;
mod driver;
mod going;
mod next_action;
mod starting;

pub use driver::Driver;
pub use nc_moves::{GrantList, IdList, Moves, SlotList, TransferList};
pub use nc_plan::SegList;
pub use nc_rules::{Answer, Next, PageMove, Refusal, Seen};
