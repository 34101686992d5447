//! The laws of the steps of scripts, and of the transfer of a copy, over the definitions alone.

ghost use Rattle.nc_flatness.specs.Steps.{StepsAreFlat, TransfersAreFlat};

/// Proves that a step of an operation that neither lends nor takes back begins with a touch, or that its reads show
/// flat memory and flat memory's bytes, with its writes made, stand after it. The step may happen, in a world of an
/// accepted scenario whose bytes stand before it.
pub fn steps_go()
    ensures { StepsAreFlat }
{}

/// Proves that a copy's store to its channel's registers, its poll and its release begin with a touch, or that flat
/// memory's bytes stand after them and their reads show it. The step may happen, in a world of an accepted scenario
/// whose bytes stand before it.
pub fn transfers_go()
    ensures { TransfersAreFlat }
{}
