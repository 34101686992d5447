//! The laws of a push and of a drain, over the definitions alone.

ghost use Rattle.nc_queue.specs.Laws.{PushIsNewest, DrainKeepsBytes, MarkersKeepOrder, OutputsInOrder};

/// Proves that the byte that a queue gives at a place after a push is that of the pushed entry where it gives one, else
/// the byte that it gave before.
#[tactic(auto, using(crate::proofs::GivesLaws::push_rules))]
pub fn push_law()
    ensures { PushIsNewest }
{}

/// Proves that a drain keeps the byte that a hart sees at each place: the drained entry goes below those that stay.
#[tactic(auto, using(crate::proofs::DrainLaws::drain_rules))]
pub fn drain_law()
    ensures { DrainKeepsBytes }
{}

/// Proves that, where each of some entries of class W has a marker of W before O after it, a later entry of class O
/// that the marker holds back drains only when none of them is left.
#[tactic(auto, using(crate::proofs::FenceLaws::marker_rules))]
pub fn marker_law()
    ensures { MarkersKeepOrder }
{}

/// Proves that entries of class O drain in order.
#[tactic(auto, using(crate::proofs::DrainLaws::output_rules))]
pub fn output_law()
    ensures { OutputsInOrder }
{}
