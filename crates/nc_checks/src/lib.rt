//! What a driver knows of its script from the start, and the steps of the operations by their index.
//!
//! The contract for the crates above: `DriverConfig` is that of nc_rules, for a hart of the scenario. `step_due` is the
//! step that is due in the script, or its refusal. `begin` is the definition of that name, the tests of a start step
//! and the lots that it makes, and `opening` its first turn. A file holds a family of operations, as in nc_rules;
//! `operations` alone names them all. The driver stands above.
#![tactic(auto)]

mod accesses;
mod areas;
mod cache_ops;
mod channels;
mod copies;
mod handing;
mod mappings;
mod operations;
mod ranges;
mod refusals;
mod scatter_lists;
mod setup;
mod steps;

pub use operations::has_start;
pub use setup::DriverConfig;
