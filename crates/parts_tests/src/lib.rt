//! Tests of the base and of the low parts: numbers, streams, memory, translation, ownership, caches, queues, harts.
//! They use public calls alone, and show what no clause says: that each call can succeed, and rows worked by hand.
//!
//! No crate of the product stands on this one, so each of them is proved once, without its tests.
#![tactic(auto)]

#[cfg(test)]
mod cache;
#[cfg(test)]
mod env;
#[cfg(test)]
mod hart;
#[cfg(test)]
mod io;
#[cfg(test)]
mod mail;
#[cfg(test)]
mod mem;
#[cfg(test)]
mod model;
#[cfg(test)]
mod num;
#[cfg(test)]
mod own;
#[cfg(test)]
mod pte;
#[cfg(test)]
mod queue;
#[cfg(test)]
mod slots;
#[cfg(test)]
mod touch;
