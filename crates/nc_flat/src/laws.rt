//! The laws of flat memory, over the definitions alone.

ghost use Rattle.nc_flat.specs.Laws.{EachRunIsLatest, EachRunIsKept, EachEventIsFlat, EachRunIsFlat, EachPoolIsUncached};

/// Proves that each load and each channel read before the first touch shows flat memory: the initial memory with the
/// stores of scripts, the zeros and the writes of channels made in order. It holds of every accepted scenario and every
/// list of events that name what exists, whatever happens in whatever order.
#[tactic(auto, using(crate::proofs::FlatLaws::latest_always))]
pub fn latest_law()
    ensures { EachRunIsLatest }
{}

/// Proves that after each prefix without a touch of a run the bytes that are kept are flat memory's: in the caches
/// where they hold the block, else in memory. Kept are the bytes outside the bounce slots that threads own, that are
/// passed on, that belong to mappings that are synced, or that nobody owns. A byte that a queue still gives is
/// excepted. It holds of every accepted scenario and every list of events that name what exists.
#[tactic(auto, using(crate::proofs::FlatLaws::kept_always))]
pub fn kept_law()
    ensures { EachRunIsKept }
{}

/// Proves that each event begins with a touch, or that its reads show flat memory and flat memory's bytes, with its
/// writes made, stand where the rows say. The event names what exists, in a world of an accepted scenario whose bytes
/// stand before it.
#[tactic(auto, using(crate::proofs::FlatLaws::event_always))]
pub fn events_keep_flat()
    ensures { EachEventIsFlat }
{}

/// Proves that after each run of an accepted scenario without a touch the bytes of flat memory, with the run's writes,
/// stand where the rows say. The events name what exists.
#[tactic(auto, using(crate::proofs::FlatLaws::flat_always))]
pub fn runs_keep_flat()
    ensures { EachRunIsFlat }
{}

/// Proves that after each run of an accepted scenario without a touch no cache has a copy of a page of the coherent
/// pool, but while the area that has the page is being allocated. The events name what exists.
#[tactic(auto, using(crate::proofs::FlatLaws::uncached_always))]
pub fn uncached_law()
    ensures { EachPoolIsUncached }
{}
