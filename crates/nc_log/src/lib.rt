//! The records of the events that happened, in order, with room for those of one more event.
//!
//! The contract for the crates above: a log is the list of its records and the number of further records for which it
//! has room. Each call appends the records that nc_rules' `specs/Records` says of a part of an event; only `reserve`
//! takes memory. The world stands above it.
#![tactic(auto)]

mod log;
mod records;

pub use log::Log;
pub use records::RecordList;
