//! Tests of the laws: of the written machine, of its scripts and runs, of rows and of flat memory. They show what no
//! clause says: that the laws are ones that a call meets.
#![tactic(auto)]

#[cfg(test)]
mod flat;
#[cfg(test)]
mod rows;
#[cfg(test)]
mod rules;
