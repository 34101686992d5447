//! Sources and sinks of bytes whose failures have a cause.
//!
//! The contract for the crates above: a source or a sink returns `Failed` only where its count of faults rose in the
//! call or stands at its limit of 2^64 - 1. `write_all` writes the whole piece, or a prefix of it where it stops. A
//! generic program that is proved over `Source` and `Sink` is proved over memory, over memory some of whose calls fail,
//! and over the readers and writers of std.
#![tactic(auto)]

mod memory;
mod sink;
mod source;
mod stream;
mod sure;

pub use memory::{MemSink, MemSource};
pub use sink::{Sink, Stop, write_all};
pub use source::{Failed, Source};
pub use stream::{StdSink, StdSource};
pub use sure::{SureSink, SureSource};
