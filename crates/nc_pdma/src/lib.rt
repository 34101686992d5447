//! The PDMA engine: one channel, which reads and writes memory behind the caches.
//!
//! The profile (registers, FIFO, the sizes of transactions, errors) is this project's own; names are after the SiFive
//! FU540-C000, and no agreement with its manual is claimed. The one contract for the crates above: an access to a
//! register, a read and a write return, and leave behind, exactly what `specs/Channel` and `specs/Steps` say. The
//! machine stands above it, with four channels beside the caches.
#![tactic(auto)]

mod channel;
mod laws;

pub use channel::{ChanStep, Channel};
pub use laws::{
    channels_stay_sound, claim_by_control, reads_take_the_next_bytes, writes_give_the_first_bytes,
};
