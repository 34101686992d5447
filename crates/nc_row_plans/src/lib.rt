//! Plans: what each step of a mapping's own plan does to its row.
//!
//! The crate has no code. An entry of the plan keeps what the plan is still to do in order. A full fence, or the last
//! copy, ends the mapping's stay with its owner. A row begins with a turn of its owner. The contract for the layers
//! above: the laws.
#![tactic(auto)]

mod laws;

pub use laws::{plans_lend, plans_return, rows_begin, rows_plan};
