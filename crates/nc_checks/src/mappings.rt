//! Single mappings (Linux DMA API): the tests and the opening turns of their operations.

ghost use Rattle.std.specs.Prelude.{◌≡◌, ◌+◌, ◌≤◌, List, length, All, IfOk};
ghost use Rattle.nc_rules.specs.Lots as lot_rules;
ghost use Rattle.nc_rules.specs.Mappings as rules;
ghost use Rattle.nc_rules.specs.Refusals as refusal_rules;
ghost use Rattle.nc_rules.specs.declared.lots.Kind.TheVariants.{Single};
ghost use Rattle.nc_rules.specs.declared.steps.Turn.TheVariants as turns;
ghost use Rattle.nc_checks.specs.Due.{ok_as, makes_none};
ghost use Rattle.nc_checks.specs.Safe.{IsSafe};

use crate::refusals::named;
use crate::setup::DriverConfig;
use nc_lots::lot_named;
use nc_num::{ChanNo, Dir, Label, NoMemory};
use nc_own::Book;
use nc_rules::{Kind, Lot, Refusal, Side, Turn};
use nc_scen::SgEntry;
use std::alloc::Global;

/// Tests that a lot of this label and kind exists.
pub(crate) fn needs_lot(lots: &[Lot], label: Label, kind: Kind) -> Result<(), Refusal>
    ensures { makes_none result ≡ rules.needs_lot (refusal_rules.named lots.now label kind) }
{
    named(lots, label, kind)?;
    Ok(())
}

/// Whether a lot of this side is synced for the hart.
fn is_synced(side: Side) -> bool
    ensures { result ≡ lot_rules.is_synced side }
{
    match side {
        Side::Synced => true,
        Side::Wanted | Side::Lending | Side::Device | Side::Returning | Side::Own => false,
    }
}

/// The opening turn of an unmap.
pub(crate) fn unmap_opening(lots: &[Lot], label: Label) -> Turn
    ensures { result ≡ rules.with_lot turns.Stay rules.unmap_turn (lot_rules.lot_named lots.now label Single) }
{
    match lot_named(lots, label, Kind::Single) {
        None => Turn::Stay,
        Some(lot) => {
            if is_synced(lot.side) {
                Turn::End(lot.id)
            } else {
                Turn::Return(lot.id)
            }
        }
    }
}

/// The opening turn of a sync for the hart.
pub(crate) fn to_cpu_opening(lots: &[Lot], label: Label) -> Turn
    ensures { result ≡ rules.with_lot turns.Stay rules.to_cpu_turn (lot_rules.lot_named lots.now label Single) }
{
    match lot_named(lots, label, Kind::Single) {
        None => Turn::Stay,
        Some(lot) => {
            if is_synced(lot.side) {
                Turn::Stay
            } else {
                Turn::Return(lot.id)
            }
        }
    }
}

/// The opening turn of a sync for the device.
pub(crate) fn to_dev_opening(lots: &[Lot], label: Label) -> Turn
    ensures { result ≡ rules.with_lot turns.Stay rules.to_dev_turn (lot_rules.lot_named lots.now label Single) }
{
    match lot_named(lots, label, Kind::Single) {
        None => Turn::Stay,
        Some(lot) => {
            if is_synced(lot.side) {
                Turn::Lend(lot.id)
            } else {
                Turn::Stay
            }
        }
    }
}

impl DriverConfig {
    /// Makes the tests of a map, and returns the lot that it makes. Fails where memory runs out.
    pub(crate) fn map_begin(
        &self,
        alloc: Global,
        lots: &[Lot],
        book: &Book,
        label: Label,
        entry: SgEntry,
        dir: Dir,
        chan: ChanNo,
    ) -> Result<Result<Vec<Lot>, Refusal>, NoMemory>
        requires safe { IsSafe self.now }
        requires book { All (λ b. b.at + b.len ≤ length book.now.owners) self.now.buffers }
        ensures { IfOk result (λ r. ok_as r (λ v. v.items) ≡ rules.map_begin self.now lots.now label entry dir chan book.now.owners) }
    {
        self.list_begin(alloc, lots, book, label, Kind::Single, &[entry], dir, chan)
    }
}
