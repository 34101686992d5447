//! The registers of one PDMA channel, and what each access does to them.
//!
//! The profile (offsets, widths, bits, and the effect of each write) is this project's own; names and numbers are after
//! the SiFive FU540-C000, and no agreement with its manual is claimed. The one contract for the crates above: an access
//! in the table of `specs/Table` reads or writes its register by `specs/Writes`; any other returns `BadMmio` and
//! changes nothing. The engine stands above it, and moves the bytes that Exec describes.
#![tactic(auto)]

mod config;
mod control;
mod regs;
mod table;

pub use config::Transfer;
pub use regs::{Regs, claim_by_control, runs_are_claimed};
pub use table::{BadMmio, CONTROL, known};
