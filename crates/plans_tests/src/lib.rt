//! Tests of the parts that plan and transfer: operations and plans, the steps of an access, scatter lists, coherent
//! areas, copies, and the channels of the DMA engine. They use public calls alone, and show what no clause says: that
//! each call can succeed, and lists worked by hand.
#![tactic(auto)]

#[cfg(test)]
mod coherent;
#[cfg(test)]
mod fixtures;
#[cfg(test)]
mod memcpy;
#[cfg(test)]
mod pdma;
#[cfg(test)]
mod pdma_regs;
#[cfg(test)]
mod plan;
#[cfg(test)]
mod plans;
#[cfg(test)]
mod sg;
#[cfg(test)]
mod steps;
