//! The side of a lot between two turns, and the change of an area's pages.

ghost use Rattle.std.specs.Prelude.{◌≡◌, option_map};
ghost use Rattle.nc_rules.specs.Lots.{is_wanted};
ghost use Rattle.nc_rules.specs.Turns.{is_area, pages_taken, pages_given, page_move};
ghost use Rattle.nc_moves.specs.Turned.{is_of, after, side_after, side_to};

use nc_lots::{is_lot, only_entry};
use nc_rules::{Kind, Lot, LotId, PageMove, Side, Turn};

/// Returns whether a turn names a lot.
pub(crate) fn is_of(turn: Turn, lot: &Lot) -> bool
    ensures { result ≡ is_of turn lot.now }
{
    match turn {
        Turn::Stay | Turn::Pass(_, _) | Turn::Own(_) => false,
        Turn::Lend(id)
        | Turn::Give(id)
        | Turn::Return(id)
        | Turn::Sync(id)
        | Turn::Settle(id)
        | Turn::End(id) => is_lot(id, lot),
    }
}

/// Returns the side of a lot after a turn, or None where the turn removes it.
pub(crate) fn side_after(turn: Turn, lot: &Lot) -> Option<Side>
    ensures { result ≡ side_after turn lot.now }
{
    match turn {
        Turn::Stay | Turn::Pass(_, _) | Turn::Own(_) => Some(lot.side),
        Turn::Lend(id) => Some(side_to(Side::Lending, id, lot)),
        Turn::Give(id) => Some(side_to(Side::Device, id, lot)),
        Turn::Return(id) => Some(side_to(Side::Returning, id, lot)),
        Turn::Sync(id) => Some(side_to(Side::Synced, id, lot)),
        Turn::Settle(id) => Some(side_to(Side::Own, id, lot)),
        Turn::End(id) => {
            if is_lot(id, lot) {
                None
            } else {
                Some(lot.side)
            }
        }
    }
}

fn side_to(side: Side, id: LotId, lot: &Lot) -> Side
    ensures { result ≡ side_to side id lot.now }
{
    if is_lot(id, lot) { side } else { lot.side }
}

/// Returns whether a lot of this side is not lent yet.
pub(crate) fn is_wanted(side: Side) -> bool
    ensures { result ≡ is_wanted side }
{
    match side {
        Side::Wanted => true,
        Side::Lending | Side::Device | Side::Returning | Side::Synced | Side::Own => false,
    }
}

/// Returns whether a lot of this kind is a coherent area.
pub(crate) fn is_area(kind: Kind) -> bool
    ensures { result ≡ is_area kind }
{
    match kind {
        Kind::Area => true,
        Kind::Single | Kind::List | Kind::Copy => false,
    }
}

/// Returns the page move of a lending: the pages of an area that was not lent before are taken.
pub(crate) fn pages_taken(lot: &Lot, side: Side) -> PageMove
    ensures { result ≡ pages_taken (record lot.now { side = side }) }
{
    if is_area(lot.kind) && is_wanted(side) {
        PageMove::Take(only_entry(lot).span)
    } else {
        PageMove::Stay
    }
}

/// Returns the page move of a lot's end: the pages of an area are given back.
pub(crate) fn pages_given(lot: &Lot) -> PageMove
    ensures { result ≡ pages_given lot.now }
{
    if is_area(lot.kind) {
        PageMove::Give(only_entry(lot).span)
    } else {
        PageMove::Stay
    }
}

/// Returns the first of two page moves that is not Stay, or Stay.
pub(crate) fn page_move(first: PageMove, later: PageMove) -> PageMove
    ensures { result ≡ page_move first later }
{
    match first {
        PageMove::Stay => later,
        PageMove::Take(_) | PageMove::Give(_) => first,
    }
}
