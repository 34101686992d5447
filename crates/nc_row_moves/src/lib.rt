//! Drains, fills and evictions: each keeps the row of every place, whoever owns it.
//!
//! The crate has no code. No law of it looks at an operation of a script: what is still to come of a plan stands in the
//! row. The contract for the layers above: the laws.
#![tactic(auto)]

mod laws;

pub use laws::{parts_stay, rows_drain, rows_move};
