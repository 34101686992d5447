//! Flatness: where the bytes of flat memory stand in a world, before the first touch.
//!
//! The crate has no code. Each law is a public function with an empty body. The contract for the layers above: what
//! holds of a world of a scenario (`IsWorldOf`) and of its bytes (`BytesStand`) at the start, and what holds of the
//! world after each event.
#![tactic(auto)]

mod laws;

pub use laws::{start_is_flat, worlds_start, worlds_stay};
