//! Flat memory: what the drivers of scripts see of a memory behind caches, store queues and channels.
//!
//! The crate has no code. It proves two laws over the definitions of the written machine, whatever events happen in
//! whatever order. Each load and each channel read before the first touch shows the byte that was last written to its
//! place. And after each prefix of the run without a touch, memory below the queues has the same byte outside the
//! bounce slots, wherever no queue holds a newer one and no mapping lends the place. The contract for the layers above:
//! `latest_law` and `kept_law`; beside them, that pages of coherent areas stay out of the caches.
#![tactic(auto)]

mod laws;

pub use laws::{events_keep_flat, kept_law, latest_law, runs_keep_flat, uncached_law};
