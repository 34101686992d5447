//! The laws of rows, over the definitions alone.

ghost use Rattle.nc_rows.specs.Laws.{RowsKeep, StepsAhead};

/// Proves that a row stays from one machine to another where no queue changes, and nothing that a row could tell
/// changes at its places. An area that is being lent has a further condition: a place that no hart holds stays so.
#[tactic(auto, using(crate::proofs::Kept::rows_keep))]
pub fn rows_keep()
    ensures { RowsKeep }
{}

/// Proves that what is still to come of a plan loses its first step with each step that is made, up to the step that
/// ends a mapping's stay with its owner, or that sends a message. Where no step ends it, nothing is to come.
#[tactic(auto, using(crate::proofs::Steps::steps_ahead))]
pub fn steps_ahead()
    ensures { StepsAhead }
{}
