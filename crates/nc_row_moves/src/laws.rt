//! The laws of drains, fills and evictions, over the definitions alone.

ghost use Rattle.nc_row_moves.specs.Laws.{RowsDrain, RowsMove};
ghost use Rattle.nc_row_moves.specs.Parts.{PartsStay};

/// Proves that an entry that drains keeps each row, and that the token of a mapping that is being lent makes the row
/// the device's.
///
/// The machine is sound, and the entry loses no byte that the row tells. What is still to come of a mapping's place
/// lies in the place's block. The token of an area is that of one that is given, not allocated, and no hart holds the
/// place.
#[tactic(auto, using(crate::proofs::RowDrains::rows_drain))]
pub fn rows_drain()
    ensures { RowsDrain }
{}

/// Proves that a fill and an eviction of a block in range keep each row in a sound machine. A fill has a condition:
/// where the row is of an area that is being lent, its block is in the coherent pool.
#[tactic(auto, using(crate::proofs::RowMoves::rows_move))]
pub fn rows_move()
    ensures { RowsMove }
{}

/// Proves that a drain, a fill and an eviction keep what holds beside the rows: what the queues may have; that no copy
/// of the coherent pool exists but of an area that is being allocated; and what the last loads brought. The machine is
/// sound, and for the copies the pool is made of whole blocks.
#[tactic(auto, using(crate::proofs::PartMoves::parts_stay))]
pub fn parts_stay()
    ensures { PartsStay }
{}
