//! The laws of issues, over the definitions alone.

ghost use Rattle.nc_row_issues.specs.Laws.{RowsIssue};

/// Proves which rows an issue keeps. A load keeps each row, but where it brings a block of an area that is being lent.
/// An entry keeps a row where it gives none of the row's bytes, is not the row's token, and adds nothing that the row
/// waits for. An entry over a place that is the hart's own gives the row its byte. The hart sees flat memory at a place
/// of its own.
#[tactic(auto, using(crate::proofs::RowIssues::rows_issue))]
pub fn rows_issue()
    ensures { RowsIssue }
{}
