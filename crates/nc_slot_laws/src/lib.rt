//! Slots: none is given twice, and a search is refused only after it tried each slot.
//!
//! The crate has no code. Each law is a public function with an empty body, over every accepted scenario and every list
//! of events that name what exists, with touches or without. The contract for the layers above: `slots_law` and
//! `noslot_law`.
#![tactic(auto)]

mod laws;

pub use laws::{noslot_law, slots_law};
