//! The lines of a report: those of events and their records, those after all events, and the line of a refused input.
//!
//! The contract for the layer above: each text is exactly the written one, byte for byte, or memory ran out.
#![tactic(auto)]

mod after;
mod faults;
mod lines;
mod put;
mod steps;
mod words;

pub use after::tail;
pub use faults::refused;
pub use lines::{event_line, line};
pub use steps::{step_out, step_out_with};
