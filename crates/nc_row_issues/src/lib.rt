//! Issues: which rows a hart's load and a hart's entry keep, and which rows get the byte that the entry gives.
//!
//! The crate has no code, and its law looks at no operation of a script. The contract for the layers above: the law.
#![tactic(auto)]

mod laws;

pub use laws::rows_issue;
