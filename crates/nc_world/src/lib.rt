//! The world: events happen one at a time to the machine, to the drivers of its scripts and to the book of owners, and
//! are recorded.
//!
//! The contract for the crates above: contracts see a world as the written machine's state and the records since they
//! were last taken. It begins as `start`. `step` leaves the state that `next` says, adds the records that
//! `event_records` says, and answers Skipped exactly where `enabled` does not hold (nc_rules). Where memory runs out,
//! the world is unchanged. The schedule and the report stand above it.
#![tactic(auto)]

mod acts;
mod parts;
mod setup;
mod steps;
mod world;

pub use nc_log::RecordList;
pub use nc_rules::{Answer, Record, Refusal, ToldAnswer};
pub use nc_scen::Event;
pub use world::{Stepped, World};
