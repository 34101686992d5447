//! What a reader may do with a report's own text.
//!
//! The crate has no code. Each law is a public function with an empty body. The contract for the layers above: the
//! event lines of the report of any run, read as a schedule's tokens, are the events that the run did; and the scenario
//! that has them as its schedule is accepted and gives the same report and status.
#![tactic(auto)]

mod laws;

pub use laws::{lines_law, replay_text_law};
