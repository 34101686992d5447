//! The laws of transactions, over the definitions alone.

ghost use Rattle.nc_row_channels.specs.Laws.{RowsOfChannels};

/// Proves what a channel's transactions do to a row. A read, a claim, a take and a transaction outside of RAM keep each
/// row, and the byte that a channel reads of a mapping that it has is flat memory's. A write keeps the rows beside its
/// span, and gives the row of a place in it the byte that it writes, where the mapping is one that its channel may
/// write.
#[tactic(auto, using(crate::proofs::RowWrites::rows_of_channels))]
pub fn rows_of_channels()
    ensures { RowsOfChannels }
{}
