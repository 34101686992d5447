//! The meaning of ownership and of flat memory: who owns a place, what the owner table lets a hart and a channel do,
//! what a touch is, and which bytes a read must show.
//!
//! The only product code here is the types and their accessors. The definitions stand in `specs/`, and each public
//! function without a receiver is a law about them. The contract for the crates above: the owner of a place is that of
//! the newest transfer that covers it, and flat memory is the writes of a list of accesses, applied in order.
#![tactic(auto)]

mod deeds;
mod laws;
mod owners;
mod touches;

pub use deeds::{Deed, NamedBytes};
pub use laws::{
    append_is_in_order, first_fault_is_first, grants_stay_apart, later_is_after, latest_in_two,
    newest_transfer_wins, no_touch_is_allowed, one_grant_serves, one_may, other_bytes_stay,
    piece_is_spliced, reads_by_number, touch_ends, unresolved_exactly_outside,
};
pub use owners::{Access, Actor, Grant, Owner};
pub use touches::{Touch, TouchKind};
