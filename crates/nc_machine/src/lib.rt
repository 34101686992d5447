//! The machine as one object: memory with the coherent caches, the harts with their store queues, the channels of the
//! DMA engine, and the mailbox.
//!
//! The contract for the crates above: contracts see the written machine of `nc_rules`, and each call is exactly its
//! part of the definitions: the next state, the answer, and the bus transfers, in order. Beside the machine they see
//! `spare`, the number of further blocks for which its caches have room. A call that may bring a block needs room for
//! one. `reserve` makes this room, and no other call on a machine takes memory. The world stands on this crate, and
//! uses the machine's parts in no other way.
#![tactic(auto)]

mod engine;
mod harts;
mod machine;
mod start;

pub use machine::Machine;
pub use nc_rules::Issued;
