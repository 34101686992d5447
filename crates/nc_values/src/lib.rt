//! The values of a scenario's JSON text, one at a time: their shapes, their limits and their paths.
//!
//! The contract for the crates above: each reader returns what its definition gives (`specs/Values.antt`): the value,
//! or what is wrong with it, a shape or a limit with its number. A reader that knows the path returns the refusal with
//! the path, or that memory ran out (`specs/Outcomes.antt`). All of it is this project's own, but for modes and
//! environment registers (RISC-V Privileged Architecture), cache-block operations (RISC-V CMO 1.0) and the page table
//! (Svpbmt).
#![tactic(auto)]

mod fields;
mod json;
mod numbers;
mod refused;
mod values;
mod wrong;

pub use fields::{
    below_at, field, list_at, mode_at, number_at, number_to_at, placed, register_at, sized,
};
pub use json::value_of;
pub use numbers::{digit_below, number_below, number_in};
pub use refused::{Path, Refused, ScenFault};
pub use values::{
    below, cbo_kind, chan, dir, fences, hart, is_ram, is_size, label, list, mode, most, number,
    once, register, text, truth, wide, word,
};
pub use wrong::{OpFault, Wrong};
