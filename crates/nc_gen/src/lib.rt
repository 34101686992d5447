//! The generator: a large scenario for each number, and the line that sums up its run.
//!
//! The contract for the layer above: `scenario` is the definition of that name (`specs/Generator.antt`), and it is
//! accepted; `summary` is the line of `specs/Summary.antt`. All of it is this project's own.
#![tactic(auto)]

mod generator;
mod totals;

pub use generator::scenario;
pub use totals::{copies_done, slots_missed, summary};
