//! The command `pool`: a pool of small coherent pieces, and a list of operations on it.
//!
//! The contract for the crates above: the answer to some bytes is the definition's, to the byte, or its refusal
//! (`specs/Serving.antt`), or memory runs out. All of it is this project's own.
#![tactic(auto)]

mod answer;
mod digits;
mod refused;
mod request;
mod serving;

pub use answer::{pool_answer, pool_refused};
pub use refused::{PoolFault, PoolRefused};
