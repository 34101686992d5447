//! The turns of the threads that drive one machine: a history of events, kept beside the world that it leads to.
//!
//! Each driver has a thread, and so have the channels and the caches. The crate starts no thread: it has the value that
//! they share under a lock. Another thread knows nothing of such a value but its type, so the type's invariant says
//! all: the world is the run of the stored history on the scenario that the type names, and each event of the history
//! comes next in its thread. The contract for the layer above: `turn` and `tell` append a thread's next event, `finish`
//! and `add_rounds` end the history with finishing rounds, and `write_live` writes a history and the report of its run.
//! The threads, and the pool whose answers are told, stand above it.
#![tactic(auto)]

mod counts;
mod done;
mod draws;
mod live;
mod threads;
mod writing;

pub use done::DoneState;
pub use live::LiveState;
pub use threads::{SceneName, Turner};
pub use writing::write_live;
