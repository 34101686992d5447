//! The law of drains, fills, evictions and channels in flat memory, over the definitions alone.

ghost use Rattle.nc_flat_moves.specs.Laws.{MovesGo};

/// Proves that each drain, fill, eviction and channel's transaction begins with a touch, or that its reads show flat
/// memory and flat memory's bytes, with its writes made, stand where the rows say. It holds of each such event that may
/// happen, in a world of an accepted scenario whose bytes stand so before it.
#[tactic(auto, using(crate::proofs::MoveLaws::moves_go_law))]
pub fn moves_go()
    ensures { MovesGo }
{}
