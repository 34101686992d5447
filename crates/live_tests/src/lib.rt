//! Tests of driver threads over one locked machine, by the public call alone: that the drivers run at once, that
//! each is told the pool's answers, and that the written history runs again to the same report.
#![tactic(auto)]

#[cfg(test)]
mod fixtures;
#[cfg(test)]
mod gates;
#[cfg(test)]
mod live;
#[cfg(test)]
mod streams;
