//! Flat memory through the claim of a copy by a channel.
//!
//! The crate has no code. A claim of a channel that is granted already gives the copy up, with nothing lent. A claim of
//! a free channel lends both ends of the copy: each of their places begins to be lent, and the rest of the copy's plan
//! goes through. The contract for the layers above: `claims_go`, that flat memory's bytes stand after each such claim.
#![tactic(auto)]

mod laws;

pub use laws::claims_go;
