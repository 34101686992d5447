//! Rows: where flat memory's byte stands at each place, by the owner of the place.
//!
//! The crate has no code. A row speaks of one place, or of a place of a mapping and the place that the mapping's
//! channel sees for it. It speaks of memory and copies there, of the queues, and of what the plan of the mapping's hart
//! is still to do. So an event is followed place by place. The contract for the layers above: the definitions, and the
//! laws of what keeps a row.
#![tactic(auto)]

mod laws;

pub use laws::{rows_keep, steps_ahead};
