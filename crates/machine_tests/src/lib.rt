//! Tests of the machine. They use public calls alone, and show what no clause says: that each call can succeed, and
//! runs worked by hand.
#![tactic(auto)]

#[cfg(test)]
mod machine;
