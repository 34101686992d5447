//! The single steps of a script's access and of a channel's set-up, by their index, counted from 0.
//!
//! The contract for the crates above: `load_step`, `store_step` and `regs_step` are the definitions of the same names
//! in `specs/` of nc_plan. They give the operation of piece n of an access, where each piece of a virtual access is
//! translated by itself, and store n of the four that set a channel up. The laws say what such an operation is, and how
//! step n + 1 follows step n. The driver stands above.
#![tactic(auto)]

mod laws;
mod pieces;
mod steps;

pub use laws::{loads_are_pieces, pieces_follow, steps_stop, stores_are_pieces, tables_serve};
pub use nc_plan::At;
pub use steps::{load_step, regs_step, store_step};
