//! The law of claims, over the definitions alone.

ghost use Rattle.nc_flatness.specs.Steps.{ClaimsAreFlat};

/// Proves that the claim of a copy, with which both ends of it are lent, or which finds its channel granted, begins
/// with a touch, or that flat memory's bytes stand after it. The step may happen, in a world of an accepted scenario
/// whose bytes stand before it.
pub fn claims_go()
    ensures { ClaimsAreFlat }
{}
