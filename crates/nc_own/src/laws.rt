//! The laws of the list of owners.

ghost use Rattle.nc_own.specs.Laws.{EachFollows, JudgeAlike};

/// Proves that the list of the owners of all places follows the list of transfers: each place has the owner of the
/// newest transfer over it, and a change of the list is one more transfer.
pub fn book_is_transfers()
    ensures { EachFollows }
{}

/// Proves that two functions of owners that agree in RAM judge each access inside RAM alike.
pub fn same_touches()
    ensures { JudgeAlike }
{}
