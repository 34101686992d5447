//! The laws of the drivers of scripts.
//!
//! The crate has no code. Each law is a public function with an empty body. Its contract says what holds of the drivers
//! that nc_rules defines. `specs/Drivers` speaks of every driver of an accepted scenario: the invariant `IsDriver`
//! holds from its start on and through all its calls, and what it does next and what it changes exists in every machine
//! of its scenario's size. The contract for the layers above: these laws, and the lemmas of `proofs/` that state them
//! case by case.
#![tactic(auto)]

mod drivers;

pub use drivers::{every_driver_begins, every_driver_stays, last_loads_follow, new_lots_are_free};
