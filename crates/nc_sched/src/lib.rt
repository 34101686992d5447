//! The schedule of a scenario: the order in which events are tried.
//!
//! A list of tokens or seeded draws comes first, then finishing rounds where they are wanted, and at most as many
//! events in all as the limit. The contract for the layer above: `Sched::next` returns, one after another, exactly the
//! events of the written schedule; and a run made again from its done events alone writes the same report.
#![tactic(auto)]

mod laws;
mod sched;

pub use laws::replay_law;
pub use sched::{Phase, STREAM, Sched, channel_event, seed_of};
