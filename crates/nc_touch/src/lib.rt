//! The judging of a hart's accesses: which of them are touches, of which kind, and whose bytes they touch.
//!
//! The contract for the crates above: the result is the touch that the definitions make of the access, or None where it
//! is none. The transactions of a channel are judged by the book itself. Above it stands the world, which reports the
//! touches.
#![tactic(auto)]

mod looks;

pub use looks::{Look, hart_touch, register_touch};
