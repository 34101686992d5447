//! A hart's side of the machine: its store queue, the bytes of its last load, and when an operation may be issued.
//!
//! The contract for the crates above: contracts see a hart as its queue and the bytes of its last load, and each call
//! is exactly the rule of `specs/Issue.antt` on them. The machine builds on it.
#![tactic(auto)]

mod hart;
mod ops;

pub use hart::Hart;
pub use ops::cut;
