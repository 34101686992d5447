//! Tests of the top call that no stored run shows: streams that fail in mid-stream, and real readers and writers.
//! Whole runs are stored in `examples`, with their reports.
#![tactic(auto)]

#[cfg(test)]
mod fixtures;
#[cfg(test)]
mod top;
