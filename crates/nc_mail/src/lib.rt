//! The mailbox: for each buffer, the hart for which a message about it waits, if one waits.
//!
//! One hart passes a buffer to another by a message. It is posted when the sender's store drains, and the hart that it
//! is for takes it. The mailbox is this project's own. The contract for the crates above: a mailbox is a list with an
//! entry for each buffer, the hart for which its message waits.
#![tactic(auto)]

mod mail;

pub use mail::Mail;
