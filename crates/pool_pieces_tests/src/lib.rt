//! Tests of the pool of small pieces and of the commands `pool` and `migrate`, by their public calls alone.
#![tactic(auto)]

#[cfg(test)]
mod fixtures;
#[cfg(test)]
mod tests;
