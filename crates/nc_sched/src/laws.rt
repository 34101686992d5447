//! The law of runs that are made again.

ghost use Rattle.nc_sched.specs.Replay.{EachReplays};

/// Proves for every scenario that the done events of any run, as the scenario's schedule without finishing rounds, give
/// the same report and status; and that the scenario scheduled with the done events of its own run makes a run with the
/// same report and status.
pub fn replay_law()
    ensures { EachReplays }
{}
