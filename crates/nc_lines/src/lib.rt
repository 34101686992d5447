//! Lines: the entries of a store queue, followed by those that the plan of its hart is still to push.
//!
//! The crate has no code. An entry that a plan issues leaves its line unchanged, so a property of a line changes only
//! by drains and by what scripts push. The laws say how these keep the property that entries are covered by others or
//! by markers. The contract for the layers above: the definitions of `specs/Lines.antt`, and the laws.
#![tactic(auto)]

mod laws;

pub use laws::{lines_cover, lines_drain, lines_gain};
