//! The written machine: the definitions that a reader must believe of it.
//!
//! `specs/` composes the parts' definitions into one machine: its state and its calls (Machine, Calls), a hart's view
//! of memory (View), the drivers of scripts (Operations, Driver), the events and when they may happen (Events), the
//! state after an event and its records (Outcomes, Next), runs and schedules (Run, Schedule), and the report (Lines).
//! Beside it stand the plain types of which these speak. The crate has no code but their accessors, and no laws: those
//! stand in crates of their own, nc_calls on the machine's calls and nc_scripts on its drivers. The contract for the
//! layers above: the definitions.
#![tactic(auto)]

mod answers;
mod lots;
mod records;
mod steps;

pub use answers::{Answer, Issued, Refusal};
pub use lots::{Kind, Lot, LotId, Side};
pub use records::{Record, ToldAnswer};
pub use steps::{Act, Next, PageMove, Phase, Seen, Step, Turn};
