//! What a reader may conclude from the lines of a run.
//!
//! The crate has no code. Each law is a public function with an empty body, over every scenario and every list of
//! events. The contract for the layers above: the counts of events and of touches are those of the lines; the owners
//! after a run are those of the start with the changes that its lines tell; and the status is 1 exactly where a line is
//! a touch.
#![tactic(auto)]

mod laws;

pub use laws::{counts_law, owners_law, status_law};
