//! The book of ownership: who owns each byte of RAM, and what each mapping grants to its channel.
//!
//! Contracts see a book as the list of the owners of all places, the list of its grants in order of adding, and the
//! number of changes that it has room for. The contract for the crates above: the owner of a place is that of the
//! newest transfer over it, and an access is judged exactly by the owner table. Above it stand the drivers, which ask
//! before they map, the judging of a hart's accesses, and the world, which makes the changes.
#![tactic(auto)]

mod book;
mod finds;
mod guesses;
mod intervals;
mod laws;

pub use book::Book;
pub use intervals::Interval;
pub use laws::{book_is_transfers, same_touches};
pub use nc_model::{Access, Actor, Grant, Owner, Touch, TouchKind};
