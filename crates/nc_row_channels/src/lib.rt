//! Transactions of channels: which rows they keep, and which rows get the byte that they write.
//!
//! The crate has no code. The contract for the layers above: the law.
#![tactic(auto)]

mod laws;

pub use laws::rows_of_channels;
