//! The laws of counts and of owners, over the definitions alone.

ghost use Rattle.nc_counts.specs.Counts.{EachRunIsCounted, EachRunTellsOwners};
ghost use Rattle.nc_counts.specs.Touches.{EachStatusTells};

/// Proves that after every run the count of events is that of its `e` records, and the count of touches that of its
/// records of touches. Each count stops at 2^64 − 1.
#[tactic(auto, using(crate::proofs::CountLaws::counts_always))]
pub fn counts_law()
    ensures { EachRunIsCounted }
{}

/// Proves that after every run the owners are those of the start, with the changes of owners that the run's records
/// tell, made one after another.
#[tactic(auto, using(crate::proofs::CountLaws::owners_always))]
pub fn owners_law()
    ensures { EachRunTellsOwners }
{}

/// Proves that the status of every run is 1 exactly where a record of the run is a touch. With each other status the
/// whole run has no touch, so that the laws of flat memory speak of all of it.
#[tactic(auto, using(crate::proofs::TouchLaws::status_always))]
pub fn status_law()
    ensures { EachStatusTells }
{}
