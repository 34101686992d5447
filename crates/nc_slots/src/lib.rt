//! The slot words: for each bounce slot, the hart that holds it, if one does.
//!
//! A hart that needs a slot tries the words in turn until it gets one, and gives it back when its mapping ends. The
//! words are this project's own. The contract for the crates above: the words are a list of holders, and a word is held
//! by at most one hart.
#![tactic(auto)]

mod slots;

pub use slots::{Slots, TryAnswer};
