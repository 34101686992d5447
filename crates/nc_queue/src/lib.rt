//! The store queue of a hart: at most eight stores, cache operations, register stores, mailbox stores, ownership tokens
//! and fence markers that are issued and not yet visible to others.
//!
//! The contract for the crates above: contracts see a queue as the list of its entries, the oldest first, and each call
//! is exactly the rule of `specs/Rules.antt` on that list. The laws say how a push and a drain keep the bytes that a
//! queue gives and the order that its markers set. A hart and the machine build on it.
#![tactic(auto)]

mod entry;
mod laws;
mod queue;
mod ring;
mod rules;

pub use entry::{Entry, Full};
pub use laws::{drain_law, marker_law, output_law, push_law};
pub use queue::Queue;
