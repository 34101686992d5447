//! The scenario, which is all that a run of the machine is given, as one JSON value; and the reading of it.
//!
//! The contract for the crates above: for every byte string, `read` returns the scenario that it is or its first
//! refusal (`specs/Reading.antt`), or that memory ran out. The scenario that it returns is accepted
//! (`specs/Accepted.antt`): it meets all that the machine, the driver and the schedule take for granted. All of it is
//! this project's own.
#![tactic(auto)]

mod events;
mod format;
mod harts;
mod keys;
mod overlap;
mod reading;
mod regions;
mod scenario;
mod schedule;
mod tokens;

pub use events::Event;
pub use nc_ops::{BusArg, HexBytes, Op, Ops, SgEntries, SgEntry, Spot};
pub use nc_values::{Path, Refused, ScenFault};
pub use reading::read;
pub use scenario::{BufferSpec, BufferSpecs, Events, HartSpec, HartSpecs, Plan, Scenario, Words};
