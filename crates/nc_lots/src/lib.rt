//! The lots of a hart: queries, and the changes that turns and slots make, in place.
//!
//! The contract for the crates above: each call is nc_rules' definition of the same name; only `append` takes memory.
//! The moves of a step, the checks and the driver stand above.
#![tactic(auto)]

mod changes;
mod looks;
mod slots;

pub use changes::{append, cut, drop_wanted, turn};
pub use looks::{
    bus_of_lot, has_big, has_label, is_lot, lot_named, lot_of, lot_waits, only_entry,
    some_lot_waits,
};
pub use slots::{LotSpot, got, put_back};
