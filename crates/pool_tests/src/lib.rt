//! Tests of the slot pool between threads, by public calls alone: that its calls succeed, and that threads take slots
//! at once. They are the only tests that start threads.
#![tactic(auto)]

#[cfg(test)]
mod pool;
