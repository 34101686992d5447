//! The plans of operations as steps, which follow the start step of an operation that has one, and the answers of
//! operations.
//!
//! The contract for the crates above: `plan_of`, `good_answer`, `bad_answer` and `waited_label` are nc_rules'
//! definitions of the same names, for every operation. A file holds a family of operations, as in nc_rules; `plans` and
//! `answers` alone name them all. The driver stands above.
#![tactic(auto)]

mod answers;
mod areas;
mod channels;
mod copies;
mod handing;
mod lender;
mod lending;
mod mappings;
mod placed;
mod plans;
mod scatter_lists;
mod steps;

pub use answers::{bad_answer, good_answer, waited_label};
pub use lender::Lender;
pub use plans::plan_of;
pub use steps::{control_step, hart_step, plain, single, turning};
