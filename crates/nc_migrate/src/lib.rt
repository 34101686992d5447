//! The command `migrate`: it turns a scenario of version 1 into one of version 2.
//!
//! The contract for the crates above: the line written is the definition's, to the byte, or the scenario is refused
//! (`specs/Migrating.antt`), or memory runs out. Where the line is no longer than a scenario may be, its reading is the
//! reading of the input, with version 2.
#![tactic(auto)]

mod moving;

pub use moving::migrate;
