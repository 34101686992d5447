//! The laws of the text of a report.

ghost use Rattle.nc_replay.specs.Laws.{EachReportTells, EachReportReplays};

/// Proves that the event lines of a report, read as tokens, are the events that were done, in order, and that each of
/// them can be read. It holds of every accepted scenario and every list of events that name what exists.
#[tactic(auto, using(crate::proofs::Runs::each_report_tells))]
pub fn lines_law()
    ensures { EachReportTells }
{}

/// Proves that the event lines of the report of an accepted scenario's own schedule, read as tokens, are a schedule:
/// the scenario that lists it, with no finishing rounds, is accepted and gives the same report and status.
#[tactic(auto, using(crate::proofs::Runs::each_report_replays))]
pub fn replay_text_law()
    ensures { EachReportReplays }
{}
