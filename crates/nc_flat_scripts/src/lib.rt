//! Scripts: what a step of an operation that goes by number, or that passes a buffer, keeps of flat memory, and what a
//! copy's step on its channel's registers does.
//!
//! The crate has no code. A step is a touch, or its loads show flat memory, its stores write it, and the rows stand
//! after it. The contract for the layers above: the two laws.
#![tactic(auto)]

mod laws;

pub use laws::{steps_go, transfers_go};
