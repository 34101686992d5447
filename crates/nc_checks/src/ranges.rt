//! Ranges of buffers that are to be lent together, and the lots that they make.

ghost use Rattle.std.specs.Prelude.{◌≡◌, ◌+◌, ◌<◌, ◌≤◌, ◌∷◌, [], length, All, IfOk};
ghost use Rattle.nc_rules.specs.Lots as lot_rules;
ghost use Rattle.nc_rules.specs.Refusals as rules;
ghost use Rattle.nc_sg.specs.Lists.{IsRange};
ghost use Rattle.nc_checks.specs.Due.{ok_as, may_lend, list_begin, AreParts};
ghost use Rattle.nc_checks.specs.Safe.{IsSafe};

use crate::refusals::{lendable, owned_from, part_of, placeable, some_bytes, unused};
use crate::setup::DriverConfig;
use nc_num::{ChanNo, Dir, Label, NoMemory, Span};
use nc_own::Book;
use nc_rules::{Kind, Lot, LotId, Refusal, Side};
use nc_scen::SgEntry;
use nc_sg::SgList;
use std::alloc::Global;

/// Tests that each of these entries has bytes.
pub(crate) fn all_some(entries: &[SgEntry]) -> Result<(), Refusal>
    ensures value { result ≡ rules.all_some entries.now }
    ensures some { IfOk result (λ _. All (λ e. 0 < e.len) entries.now) }
{
    for entry in entries {
        some_bytes(entry.len)?;
    }
    Ok(())
}

/// Makes a lot that is not lent yet.
pub(crate) fn wanted_lot(id: LotId, kind: Kind, chan: ChanNo, list: SgList) -> Lot
    ensures { result ≡ lot_rules.wanted_lot id kind chan list }
{
    Lot {
        id,
        kind,
        chan,
        list,
        side: Side::Wanted,
    }
}

impl DriverConfig {
    /// Returns the ranges of entries, each of which has bytes. Fails where memory runs out.
    pub(crate) fn ranges_of(
        &self,
        alloc: Global,
        entries: &[SgEntry],
    ) -> Result<Result<Vec<Span>, Refusal>, NoMemory>
        requires safe { IsSafe self.now }
        requires some { All (λ e. 0 < e.len) entries.now }
        ensures value { IfOk result (λ r. ok_as r (λ v. v.items) ≡ rules.ranges_of self.now entries.now) }
        ensures parts { IfOk result (λ r. IfOk r (λ v. AreParts self.now (length entries.now) v.items)) }
    {
        let mut ranges = Vec::with_capacity(alloc, entries.len())?;
        for entry in entries {
            match part_of(self.buffer(entry.buf), entry.off, entry.len) {
                Ok(range) => ranges.push(range)?,
                Err(refusal) => return Ok(Err(refusal)),
            }
        }
        Ok(Ok(ranges))
    }

    /// Makes a lot of these ranges, of which those bounce that the rule names. Fails where memory runs out.
    pub(crate) fn ranges_lot(
        &self,
        alloc: Global,
        id: LotId,
        kind: Kind,
        dir: Dir,
        chan: ChanNo,
        ranges: &[Span],
    ) -> Result<Lot, NoMemory>
        requires safe { IsSafe self.now }
        requires few { length ranges.now ≤ 16 }
        requires ranges { All IsRange ranges.now }
        ensures { IfOk result (λ lot. lot ≡ lot_rules.ranges_lot self.now id kind dir chan ranges.now) }
    {
        let list = SgList::new(alloc, ranges, dir, self.size(), self.reach(chan))?;
        Ok(wanted_lot(id, kind, chan, list))
    }

    /// Makes the tests of ranges that are to be lent together, and returns the lot that they make. Fails where memory
    /// runs out.
    pub(crate) fn list_begin(
        &self,
        alloc: Global,
        lots: &[Lot],
        book: &Book,
        label: Label,
        kind: Kind,
        entries: &[SgEntry],
        dir: Dir,
        chan: ChanNo,
    ) -> Result<Result<Vec<Lot>, Refusal>, NoMemory>
        requires safe { IsSafe self.now }
        requires book { All (λ b. b.at + b.len ≤ length book.now.owners) self.now.buffers }
        requires few { length entries.now ≤ 16 }
        ensures { IfOk result (λ r. ok_as r (λ v. v.items) ≡ list_begin self.now lots.now label kind entries.now dir chan book.now.owners) }
    {
        if let Err(refusal) = all_some(entries) {
            return Ok(Err(refusal));
        }
        let ranges = match self.ranges_of(alloc, entries)? {
            Ok(ranges) => ranges,
            Err(refusal) => return Ok(Err(refusal)),
        };
        let id = LotId { label, first: 0 };
        if let Err(refusal) = self.may_lend(lots, book, id, dir, &ranges) {
            return Ok(Err(refusal));
        }
        let lot = self.ranges_lot(alloc, id, kind, dir, chan, &ranges)?;
        let new = one_lot(alloc, lot)?;
        Ok(placeable(self.slots(), new))
    }

    /// Tests that the label of a lot is not in use, that its ranges are the hart's own, and that its plans are enabled.
    fn may_lend(
        &self,
        lots: &[Lot],
        book: &Book,
        id: LotId,
        dir: Dir,
        ranges: &[Span],
    ) -> Result<(), Refusal>
        requires few { length ranges.now ≤ 16 }
        requires first { id.first ≤ 1 }
        requires inside { All (λ range. range.at + range.len ≤ length book.now.owners) ranges.now }
        requires ranges { All IsRange ranges.now }
        ensures { result ≡ may_lend self.now lots.now id dir book.now.owners ranges.now }
    {
        unused(lots, id.label)?;
        owned_from(self.me(), id, book, ranges)?;
        lendable(self.effects(), dir)
    }
}

/// Returns one lot in a vector. Fails where memory runs out.
pub(crate) fn one_lot(alloc: Global, lot: Lot) -> Result<Vec<Lot>, NoMemory>
    ensures { IfOk result (λ v. v.items ≡ lot ∷ []) }
{
    let mut lots = Vec::with_capacity(alloc, 1)?;
    lots.push(lot)?;
    Ok(lots)
}
