//! Driver threads over one locked machine.
//!
//! Each driver has a thread, and so have the channels and the caches. They share the history of nc_turns under one
//! lock, and the drivers take slots of one pool (nc_pool) outside it. The contract for the layer above: `dmalive`
//! writes the history that was made, and the report of exactly that history's run. The program stands above it.
#![tactic(auto)]

mod crew;
mod ends;
mod gate;
mod live;
mod threads;
mod top;
mod turns;

pub use gate::{Gate, NoGate};
pub use top::dmalive;
