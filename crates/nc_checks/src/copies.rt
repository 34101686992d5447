//! Copies by a channel: the tests of a copy, and its ends.

ghost use Rattle.std.specs.Prelude.{◌≡◌, ◌+◌, ◌≤◌, List, length, All, IfOk, slice_index_or, ◌∷◌, []};
ghost use Rattle.nc_rules.specs.Copies as rules;
ghost use Rattle.nc_sg.specs.Lists.{IsRange};
ghost use Rattle.nc_checks.specs.Due.{ok_as, may_copy};
ghost use Rattle.nc_checks.specs.Safe.{IsSafe};

use crate::ranges::all_some;
use crate::refusals::{lendable, owned_from, placeable};
use crate::setup::DriverConfig;
use nc_num::{ChanNo, Dir, Label, NoMemory, Span};
use nc_own::Book;
use nc_rules::{Kind, Lot, LotId, Refusal};
use nc_scen::SgEntry;
use std::alloc::Global;

/// The label of a copy's ends, which no script can name.
const ENDS: Label = Label(1000);

impl DriverConfig {
    /// Makes the tests of a copy, and returns its two ends as lots. Fails where memory runs out.
    pub(crate) fn copy_begin(
        &self,
        alloc: Global,
        book: &Book,
        src: SgEntry,
        dst: SgEntry,
        chan: ChanNo,
    ) -> Result<Result<Vec<Lot>, Refusal>, NoMemory>
        requires safe { IsSafe self.now }
        requires book { All (λ b. b.at + b.len ≤ length book.now.owners) self.now.buffers }
        ensures { IfOk result (λ r. ok_as r (λ v. v.items) ≡ rules.copy_begin self.now src dst chan book.now.owners) }
    {
        let entries = [src, dst];
        if let Err(refusal) = all_some(&entries) {
            return Ok(Err(refusal));
        }
        let ranges = match self.ranges_of(alloc, &entries)? {
            Ok(ranges) => ranges,
            Err(refusal) => return Ok(Err(refusal)),
        };
        if let Err(refusal) = self.may_copy(book, &ranges) {
            return Ok(Err(refusal));
        }
        let ends = self.ends_of(alloc, chan, ranges[0], ranges[1])?;
        Ok(placeable(self.slots(), ends))
    }

    /// Tests that the ranges of a copy are the hart's own, and that the plans of both ends are enabled.
    fn may_copy(&self, book: &Book, ranges: &[Span]) -> Result<(), Refusal>
        requires few { length ranges.now ≤ 16 }
        requires inside { All (λ range. range.at + range.len ≤ length book.now.owners) ranges.now }
        requires ranges { All IsRange ranges.now }
        ensures { result ≡ may_copy self.now book.now.owners ranges.now }
    {
        let source = LotId {
            label: ENDS,
            first: 0,
        };
        owned_from(self.me(), source, book, ranges)?;
        lendable(self.effects(), Dir::ToDev)?;
        lendable(self.effects(), Dir::FromDev)
    }

    /// Returns the two ends: the device reads the first range and writes the second. Fails where memory runs out.
    fn ends_of(
        &self,
        alloc: Global,
        chan: ChanNo,
        read: Span,
        written: Span,
    ) -> Result<Vec<Lot>, NoMemory>
        requires safe { IsSafe self.now }
        requires source { IsRange read }
        requires target { IsRange written }
        ensures { IfOk result (λ v. v.items ≡ rules.ends_of self.now chan (read ∷ written ∷ [])) }
    {
        let source = LotId {
            label: ENDS,
            first: 0,
        };
        let target = LotId {
            label: ENDS,
            first: 1,
        };
        let mut ends = Vec::with_capacity(alloc, 2)?;
        ends.push(self.ranges_lot(alloc, source, Kind::Copy, Dir::ToDev, chan, &[read])?)?;
        ends.push(self.ranges_lot(alloc, target, Kind::Copy, Dir::FromDev, chan, &[written])?)?;
        Ok(ends)
    }
}
