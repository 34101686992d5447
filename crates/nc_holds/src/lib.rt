//! Who holds what: owners, grants, slot words, pages, messages and tokens agree with the drivers of scripts.
//!
//! The crate has no code. Each law is a public function with an empty body. The contract for the layers above: the
//! invariant of a world (`Holds`) holds at the start of an accepted scenario and after each event, with touches or
//! without. So what an event moves may be moved.
#![tactic(auto)]

mod laws;

pub use laws::{events_keep_holding, moves_may_be_made, tokens_are_lent, worlds_begin};
