//! The top call of `dmasim`: words, streams and statuses.
//!
//! Its contract is the headline. Whatever the words and the bytes of the input are, what is written and answered is
//! what is due for them, or a failure that has its cause; and up to the first touch the reported run shows flat memory.
//! The parts that another program's top call shares are public too: reading the input, a run's status, writing a text.
#![tactic(auto)]

mod generated;
mod input;
mod run;
mod top;
mod words;

pub use input::{Lost, read_input};
pub use run::status_of;
pub use top::{dmasim, put};
pub use words::is_run;
