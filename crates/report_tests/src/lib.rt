//! Tests of what orders and prints the runs of the machine: the schedule, and the lines of a report. They use public
//! calls alone, and show what no clause says: that each call can succeed, draws and lines worked by hand.
#![tactic(auto)]

#[cfg(test)]
mod fixtures;
#[cfg(test)]
mod report;
#[cfg(test)]
mod sched;
