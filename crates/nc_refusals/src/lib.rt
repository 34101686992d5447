//! A refused operation changes nothing but what is told.
//!
//! The crate has no code. Each law is a public function with an empty body. The contract for the layers above: in every
//! run of an accepted scenario the event that refuses an operation, and each earlier event of that operation, leave the
//! machine, the owners, the grants and the pages unchanged, but for the steps that an operation by number has made.
//! Slot words that the operation got are given back. Beside it: a copy that is over, failed or done, has given back
//! both its ranges; after a full fence its hart has no write and no output queued; and an operation has a start step
//! exactly where it goes by a plan.
#![tactic(auto)]

mod laws;

pub use laws::{
    answers_leave_no_ends, copies_give_back, earlier_events_leave_all, fences_empty_queues,
    refusals_leave_all, starts_are_of_plans, words_are_given_back,
};
