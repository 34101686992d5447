//! Scatter lists (Linux DMA API): the tests and the opening turns of their operations.

ghost use Rattle.std.specs.Prelude.{◌≡◌, ◌+◌, ◌≤◌, List, length, All, IfOk};
ghost use Rattle.nc_rules.specs.Lots as lot_rules;
ghost use Rattle.nc_rules.specs.Mappings.{with_lot};
ghost use Rattle.nc_rules.specs.ScatterLists as rules;
ghost use Rattle.nc_rules.specs.declared.lots.Kind.TheVariants.{List as ScatterList};
ghost use Rattle.nc_rules.specs.declared.steps.Turn.TheVariants as turns;
ghost use Rattle.nc_checks.specs.Due.{ok_as, makes_none};
ghost use Rattle.nc_checks.specs.Safe.{IsSafe};

use crate::refusals::named;
use crate::setup::DriverConfig;
use nc_lots::lot_named;
use nc_num::{ChanNo, Dir, Label, NoMemory};
use nc_own::Book;
use nc_rules::{Kind, Lot, Refusal, Turn};
use nc_scen::SgEntry;
use std::alloc::Global;

/// Makes the tests of an unmap of a list, which names the number of entries that were mapped.
pub(crate) fn unmap_sg_tests(lots: &[Lot], label: Label, count: u32) -> Result<(), Refusal>
    ensures { makes_none result ≡ rules.unmap_sg_begin lots.now label count }
{
    let lot = named(lots, label, Kind::List)?;
    let entries = lot.list.entries().len() as u32;
    if entries == count {
        Ok(())
    } else {
        Err(Refusal::BadCount(entries))
    }
}

/// The opening turn of an unmap of a list.
pub(crate) fn unmap_sg_opening(lots: &[Lot], label: Label) -> Turn
    ensures { result ≡ with_lot turns.Stay rules.unmap_sg_turn (lot_rules.lot_named lots.now label ScatterList) }
{
    match lot_named(lots, label, Kind::List) {
        None => Turn::Stay,
        Some(lot) => Turn::Return(lot.id),
    }
}

impl DriverConfig {
    /// Makes the tests of a list's map, and returns the lot that it makes. Fails where memory runs out.
    pub(crate) fn map_sg_begin(
        &self,
        alloc: Global,
        lots: &[Lot],
        book: &Book,
        label: Label,
        entries: &[SgEntry],
        dir: Dir,
        chan: ChanNo,
    ) -> Result<Result<Vec<Lot>, Refusal>, NoMemory>
        requires safe { IsSafe self.now }
        requires book { All (λ b. b.at + b.len ≤ length book.now.owners) self.now.buffers }
        requires few { length entries.now ≤ 16 }
        ensures { IfOk result (λ r. ok_as r (λ v. v.items) ≡ rules.map_sg_begin self.now lots.now label entries.now dir chan book.now.owners) }
    {
        if entries.is_empty() {
            return Ok(Err(Refusal::Empty));
        }
        self.list_begin(alloc, lots, book, label, Kind::List, entries, dir, chan)
    }
}
