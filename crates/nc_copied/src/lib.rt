//! What the answer that a copy by a channel is done tells.
//!
//! The crate has no code. By the copy's poll the source's bytes had come to the destination in flat memory. At the
//! answer the hart sees flat memory in the destination, which still has the source's bytes if the channel wrote nothing
//! since the poll. The contract for the layers above: `copied_law`, that this holds of each copy that is answered done
//! before the first touch, and that no copy is answered failed before it.
#![tactic(auto)]

mod laws;

pub use laws::copied_law;
