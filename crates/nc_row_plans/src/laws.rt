//! The laws of the steps of plans, over the definitions alone.

ghost use Rattle.nc_row_plans.specs.Begins.{RowsBegin};
ghost use Rattle.nc_row_plans.specs.Laws.{RowsPlan};
ghost use Rattle.nc_row_plans.specs.Plans.{PlansLend, PlansReturn};

/// Proves what each step of a mapping's own plan does to its row.
///
/// An entry of the plan keeps the row, for what is then still to come, and a copy puts its byte there; the entry gives
/// no other byte of the row, but the zero of an area that is allocated. With the full fence, when no write of the hart
/// is queued, a mapping that is being lent is the device's, and one that is being taken back has its blocks dropped.
/// With the last copy its bytes are its hart's again. The marker and the message of a buffer that is passed on keep its
/// row.
#[tactic(auto, using(crate::proofs::PlanEnds::rows_plan))]
pub fn rows_plan()
    ensures { RowsPlan }
{}

/// Proves how a row begins with a turn of its owner, where the hart's queue has no token, full fence or message of it
/// yet.
///
/// A mapping is being lent once its plan has the block's operation, a marker and the token to come. An area is being
/// allocated once its plan has the block's flush to come, and no copy and no queued entry of the block exists. A
/// mapping is being taken back once its plan has the block dropped before the full fence. A buffer is passed on with a
/// marker before its message, and is taken once its message has left the queue.
#[tactic(auto, using(crate::proofs::PlanBegins::rows_begin))]
pub fn rows_begin()
    ensures { RowsBegin }
{}

/// Proves that the plan that lends a lot has the order that the rows of its mappings need: after what it copies into a
/// block comes the block's clean or flush, after that a marker, and then the token. The block size is one that a
/// machine may have, and the plan's operation writes blocks back.
#[tactic(auto, using(crate::proofs::LendingPlans::plans_lend))]
pub fn plans_lend()
    ensures { PlansLend }
{}

/// Proves that the plan that takes a lot back drops the block of each place that the device may have written, before
/// the full fence, and copies after it. The block size is one that a machine may have, and the plan's operation drops
/// blocks.
#[tactic(auto, using(crate::proofs::ReturningPlans::plans_return))]
pub fn plans_return()
    ensures { PlansReturn }
{}
