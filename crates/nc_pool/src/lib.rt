//! Bounce slots that threads take at once, without a lock, and never one slot twice.
//!
//! The contract for the crates above: a try of a slot is one compare-exchange, and it returns exactly what that
//! exchange found. Each slot is free and held by nobody, or is held by the one live seat whose word it has. That rule
//! is plain data in `specs/`, and holds between any two atomic steps. The crate that runs driver threads over one
//! locked machine stands above.
#![tactic(auto)]

mod pool;
mod view;

pub use pool::{NewSeat, Pool, PoolRoot, PoolSeat, PoolTry};
pub use view::{PoolKey, PoolRule, PoolView, each_slot_is_owned_once};
