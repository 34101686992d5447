//! Tests of the reading of a scenario: a value, an operation, the whole. They use public calls alone, and show what no
//! clause says: that what is read is what was written. The inputs that are refused are a table in `examples`.
#![tactic(auto)]

#[cfg(test)]
mod fixtures;
#[cfg(test)]
mod ops;
#[cfg(test)]
mod scen;
#[cfg(test)]
mod values;
