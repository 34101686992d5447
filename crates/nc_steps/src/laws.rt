//! The laws of single steps: what their operations are, and how they follow each other.

ghost use Rattle.nc_steps.specs.Laws.{LoadsArePieces, PiecesFollow, StepsStop, StoresArePieces, TablesServe};

/// Proves that each step of a load that is an operation loads one piece of the access, of 8, 4, 2 or 1 bytes, naturally
/// aligned and in one block of each size. The piece lies in the range or, where the access is virtual, in RAM.
pub fn loads_are_pieces()
    ensures { LoadsArePieces }
{}

/// Proves that each step of a store that is an operation stores one piece, as a load does, with the bytes of that
/// piece.
pub fn stores_are_pieces()
    ensures { StoresArePieces }
{}

/// Proves that a step of an access is None exactly where the access has no such piece, and a fault exactly where the
/// piece exists and its address is refused. A step of a channel's set-up is None exactly from 4 on.
pub fn steps_stop()
    ensures { StepsStop }
{}

/// Proves that step n is the first piece of what is left of the access after n pieces, and that there are at most as
/// many steps as bytes.
pub fn pieces_follow()
    ensures { PiecesFollow }
{}

/// Proves that a table whose words are valid for a RAM of at most 1,048,576 bytes serves each virtual access that ends
/// in the table's pages.
pub fn tables_serve()
    ensures { TablesServe }
{}
