//! Flat memory through the starts of mappings, scatter lists and coherent areas: those that make one, lend it, take it
//! back or end it, and the search for slots.
//!
//! The crate has no code. A start makes a lot, or the first turn of one, with which its plan is in hand. Where an entry
//! waits for a slot its driver searches first. The contract for the layers above: `starts_go`, that flat memory's bytes
//! stand after each start, each try and each answer that a driver is told.
#![tactic(auto)]

mod laws;

pub use laws::{book_rows, starts_go};
