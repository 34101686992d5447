//! Drains, fills, evictions and transactions: flat memory after each, up to a touch.
//!
//! The crate has no code. The contract for the layers above: the law.
#![tactic(auto)]

mod laws;

pub use laws::moves_go;
