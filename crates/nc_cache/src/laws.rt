//! The laws of the calls, on which the proof of flat memory builds.

ghost use Rattle.nc_cache.specs.Laws.{CallsKeepWhole, CallsKeepPlaces, CallsWritePlaces, InvalDrops, BytesAreSeen, LinesAreHeld};

/// Proves that each call keeps the length of memory, and keeps each line a whole block that some hart holds.
#[tactic(auto, using(crate::proofs::LawProofs::calls_keep_whole))]
pub fn calls_keep_whole()
    ensures { CallsKeepWhole }
{}

/// Proves that a load, fill, eviction, clean or flush changes no byte that a hart sees at a place where no copy is
/// stale, and that a load or a fill changes none at any place. After a clean no hart has the block dirty, and after a
/// flush no hart holds it.
#[tactic(auto, using(crate::proofs::LawProofs::calls_keep_places))]
pub fn calls_keep_places()
    ensures { CallsKeepPlaces }
{}

/// Proves that an own changes no byte, a store only those of its span, and a zero only those of its block. Each of them
/// leaves memory unchanged.
#[tactic(auto, using(crate::proofs::LawProofs::calls_write_places))]
pub fn calls_write_places()
    ensures { CallsWritePlaces }
{}

/// Proves that an invalidate leaves in its block the bytes of memory, and changes nothing elsewhere.
#[tactic(auto, using(crate::proofs::LawProofs::inval_drops))]
pub fn inval_drops()
    ensures { InvalDrops }
{}

/// Proves that the bytes of a span, as the domain has them, are the bytes that are seen at each of its places.
#[tactic(auto, using(crate::proofs::LawProofs::bytes_are_seen))]
pub fn bytes_are_seen()
    ensures { BytesAreSeen }
{}

/// Proves that each line has a holder.
#[tactic(auto, using(crate::proofs::LawProofs::lines_are_held))]
pub fn lines_are_held()
    ensures { LinesAreHeld }
{}
