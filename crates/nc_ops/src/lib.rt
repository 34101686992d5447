//! The operations of a hart's script, and the reading of one from its JSON value.
//!
//! The contract for the crates above: `read_op` returns the operation that a value is, in a scenario of so many harts
//! and buffers, or what is wrong with it, by `op_of` (`specs/Operations.antt`), or that memory ran out. The operation
//! that it returns fits (`specs/Fits.antt`). All of it is this project's own; the operations stand for calls of the
//! Linux DMA API and for the cache-block operations of RISC-V CMO 1.0.
#![tactic(auto)]

mod arguments;
mod operations;
mod ops;
mod texts;

pub use arguments::Counts;
pub use operations::read_op;
pub use ops::{BusArg, HexBytes, Op, Ops, SgEntries, SgEntry, Spot};
