//! Coherent areas: the pages of the coherent pool, and the plans that lend an area and take it back.
//!
//! The contract for the crates above: `find` returns exactly the lowest run of free pages, `take` and `give` change
//! exactly the pages of their span, and the two plans are the whole lists of `specs/Areas.antt`. The driver stands
//! above.
#![tactic(auto)]

mod pages;
mod plans;

pub use pages::{PagePool, lowest_run_is_lowest};
pub use plans::{plan_alloc, plan_fence};
