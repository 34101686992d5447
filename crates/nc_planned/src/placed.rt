//! Lots by their names, where each entry that bounces has its slot.

ghost use Rattle.std.specs.Prelude.{◌≡◌, false, All, IfSome, option_map};
ghost use Rattle.std.specs.List.{find};
ghost use Rattle.nc_rules.specs.Lots.{is_lot, lot_named, lot_waits};

use nc_lots::{lot_named, lot_of};
use nc_num::Label;
use nc_rules::{Kind, Lot, LotId};

/// Returns the first lot of this label and kind, of lots that have their slots. None exactly where no lot has both.
#[tactic(auto, using(crate::proofs::LotLaws::all_contained))]
pub(crate) fn placed_lot(lots: &[Lot], label: Label, kind: Kind) -> Option<&Lot>
    requires { All (λ lot. lot_waits lot ≡ false) lots.now }
    ensures first { option_map (λ l. l.now) result ≡ lot_named lots.now label kind }
    ensures placed { IfSome result (λ l. lot_waits l.now ≡ false) }
{
    lot_named(lots, label, kind)
}

/// Returns the first lot of this name, of lots that have their slots. None exactly where no lot has it.
#[tactic(auto, using(crate::proofs::LotLaws::all_contained))]
pub(crate) fn placed_end(lots: &[Lot], id: LotId) -> Option<&Lot>
    requires { All (λ lot. lot_waits lot ≡ false) lots.now }
    ensures first { option_map (λ l. l.now) result ≡ find (is_lot id) lots.now }
    ensures placed { IfSome result (λ l. lot_waits l.now ≡ false) }
{
    lot_of(lots, id)
}
