//! The laws of lines, over the definitions alone.

ghost use Rattle.nc_lines.specs.Laws.{LinesDrain, LinesGain, LinesCover};

/// Proves what a drain keeps of a line. Each covered entry keeps after it a marker of W before O, or, within one block,
/// an entry that covers it. The markers between two kinds of entries stay where the drained entry is not of the second
/// kind. An entry of the second kind and of class O, such as a token, drains only where none of the first kind stands
/// before it.
#[tactic(auto, using(crate::proofs::LineLaws::lines_drain))]
pub fn lines_drain()
    ensures { LinesDrain }
{}

/// Proves what a push into the queue of a line keeps: the whole line where the entry was to come next, and else what
/// stands, what is covered and what is marked, where the entry is not of the kinds concerned.
#[tactic(auto, using(crate::proofs::Gains::lines_gain))]
pub fn lines_gain()
    ensures { LinesGain }
{}

/// Proves what a line has by its parts. Entries of a kind that a line lacks are neither in its queue nor still to come.
/// Where nothing is left that covers the entries of a kind, none of that kind is left. A queue gives a byte exactly
/// where some entry of it does.
#[tactic(auto, using(crate::proofs::LineLaws::lines_cover))]
pub fn lines_cover()
    ensures { LinesCover }
{}
