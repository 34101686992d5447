//! The operations that a hart performs: their kinds, the effects of its cache operations, the plans of a mapping, and
//! the steps of an access or of a channel's set-up by their index.
//!
//! The contract for the crates above: `effects_of` and `needs` are the definitions of `specs/Effects.antt`, `bounces`
//! is the rule of `specs/Parts.antt`, and the four plans are the whole lists of `specs/Plans.antt`. The definitions of
//! steps in `specs/` serve the crates that give one step at a time. Harts, the driver, scatter lists, coherent areas,
//! copies and the written machine build on it.
#![tactic(auto)]

mod access;
mod effects;
mod ops;
mod parts;
mod plans;
mod segments;

pub use access::At;
pub use effects::{CboOff, Effects, effects_of, needs};
pub use ops::{HartOp, IoTarget, Payload};
pub use parts::{Part, bounces, device_range_is_in_slot};
pub use plans::{
    blocks_are_met, pieces_move, plan_map, plan_to_cpu, plan_to_dev, plan_unmap, plans_are_fenced,
    push_cbos, push_full,
};
pub use segments::{SegList, Segment};
