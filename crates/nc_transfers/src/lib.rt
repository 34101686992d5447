//! The channel of a copy, from the stores to its registers to done.
//!
//! The crate has no code. Each law is a public function with an empty body, over every channel that is sound and every
//! RAM. The contract for the layers above: the state of the channel at each stage of a copy, over flat memory
//! (`specs/Transfers`), is kept by each access of the plan and each transaction, up to done, where the destination has
//! the source's bytes.
#![tactic(auto)]

mod laws;

pub use laws::{
    copies_go_on, copies_read, copies_set_up, copies_stay_within, copies_tell, copies_write,
};
