//! The laws of worlds of a scenario, over the definitions alone.

ghost use Rattle.nc_flatness.specs.Steps.{WorldsStart, StartIsFlat, WorldsStay};

/// Proves that the world at the start of an accepted scenario is a world of that scenario (`IsWorldOf`).
#[tactic(auto, using(crate::proofs::worlds::Worlds::worlds_start))]
pub fn worlds_start()
    ensures { WorldsStart }
{}

/// Proves that at the start of an accepted scenario flat memory is the scenario's memory, and that its bytes stand
/// where the rows say (`Flatness`).
#[tactic(auto, using(crate::proofs::worlds::Starts::start_flat))]
pub fn start_is_flat()
    ensures { StartIsFlat }
{}

/// Proves that a world of a scenario stays one after each event that names harts, blocks and channels that exist, with
/// touches or without.
#[tactic(auto, using(crate::proofs::worlds::Worlds::worlds_stay))]
pub fn worlds_stay()
    ensures { WorldsStay }
{}
