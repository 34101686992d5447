//! Coherent areas (Linux DMA API): the tests and the opening turns of their operations.

ghost use Rattle.std.specs.Prelude.{◌≡◌, ◌+◌, ◌<◌, ◌≤◌, List, length, All, IfOk};
ghost use Rattle.nc_plan.specs.Effects.{both};
ghost use Rattle.nc_plan.specs.Effects as effect_rules;
ghost use Rattle.nc_rules.specs.Areas as rules;
ghost use Rattle.nc_rules.specs.Lots as lot_rules;
ghost use Rattle.nc_rules.specs.Mappings.{with_lot};
ghost use Rattle.nc_rules.specs.Refusals as refusal_rules;
ghost use Rattle.nc_coherent.specs.Pages.{lowest_span};
ghost use Rattle.nc_sg.specs.Lists.{IsRange};
ghost use Rattle.nc_rules.specs.declared.answers.Refusal.TheVariants as refusals;
ghost use Rattle.nc_rules.specs.declared.lots.Kind.TheVariants.{Area};
ghost use Rattle.nc_rules.specs.declared.steps.Turn.TheVariants as turns;
ghost use Rattle.nc_checks.specs.Due.{ok_as, makes_none, calloc_tests};

use crate::ranges::{one_lot, wanted_lot};
use crate::refusals::{named, owned, planned, unused};
use crate::setup::DriverConfig;
use nc_coherent::PagePool;
use nc_env::{CboOp, Illegal};
use nc_lots::{lot_named, only_entry};
use nc_num::{ChanNo, Dir, Label, NoMemory, Span};
use nc_own::Book;
use nc_plan::CboOff;
use nc_rules::{Kind, Lot, LotId, Refusal, Side, Turn};
use nc_sg::SgList;
use std::alloc::Global;

/// Tests that an operation that a plan needs is enabled (RISC-V CMO 1.0).
fn enabled(effect: Result<CboOp, Illegal>) -> Result<(), CboOff>
    ensures { result ≡ effect_rules.legal effect }
{
    match effect {
        Ok(_) => Ok(()),
        Err(Illegal(field)) => Err(CboOff(field)),
    }
}

/// Returns the first of two refusals.
fn both_enabled(first: Result<(), CboOff>, then: Result<(), CboOff>) -> Result<(), CboOff>
    ensures { result ≡ both first then }
{
    first?;
    then
}

/// Returns the lowest run of `count` free pages.
fn lowest_pages(pages: &PagePool, count: u32) -> Result<Span, Refusal>
    requires { 0 < count }
    ensures value { result ≡ refusal_rules.some_or refusals.NoPage (lowest_span pages.now count) }
    ensures range { IfOk result IsRange }
{
    match pages.find(count) {
        Some(span) => Ok(span),
        None => Err(Refusal::NoPage),
    }
}

/// Whether an area of this side is the hart's own.
fn is_own(side: Side) -> bool
    ensures { result ≡ lot_rules.is_own side }
{
    match side {
        Side::Own => true,
        Side::Wanted | Side::Lending | Side::Device | Side::Returning | Side::Synced => false,
    }
}

/// The opening turn with which an area goes to its channel.
pub(crate) fn give_opening(lots: &[Lot], label: Label) -> Turn
    ensures { result ≡ with_lot turns.Stay rules.give_turn (lot_rules.lot_named lots.now label Area) }
{
    match lot_named(lots, label, Kind::Area) {
        None => Turn::Stay,
        Some(lot) => {
            if is_own(lot.side) {
                Turn::Lend(lot.id)
            } else {
                Turn::Stay
            }
        }
    }
}

/// The opening turn with which an area comes back.
pub(crate) fn take_opening(lots: &[Lot], label: Label) -> Turn
    ensures { result ≡ with_lot turns.Stay rules.take_turn (lot_rules.lot_named lots.now label Area) }
{
    match lot_named(lots, label, Kind::Area) {
        None => Turn::Stay,
        Some(lot) => {
            if is_own(lot.side) {
                Turn::Stay
            } else {
                Turn::Return(lot.id)
            }
        }
    }
}

/// The opening turn of the end of an area.
pub(crate) fn free_opening(lots: &[Lot], label: Label) -> Turn
    ensures { result ≡ with_lot turns.Stay rules.free_turn (lot_rules.lot_named lots.now label Area) }
{
    match lot_named(lots, label, Kind::Area) {
        None => Turn::Stay,
        Some(lot) => Turn::Return(lot.id),
    }
}

impl DriverConfig {
    /// Makes the tests of an allocation, and returns its pages.
    fn calloc_tests(
        &self,
        lots: &[Lot],
        label: Label,
        count: u32,
        pages: &PagePool,
    ) -> Result<Span, Refusal>
        ensures value { result ≡ calloc_tests self.now lots.now label count pages.now }
        ensures range { IfOk result IsRange }
    {
        if count == 0 {
            return Err(Refusal::Empty);
        }
        unused(lots, label)?;
        if !self.pbmte() {
            return Err(Refusal::NoPbmt);
        }
        let effects = self.effects();
        planned(both_enabled(enabled(effects.zero), enabled(effects.flush)))?;
        lowest_pages(pages, count)
    }

    /// Makes the tests of an allocation, and returns the lot that it makes. Fails where memory runs out.
    pub(crate) fn calloc_begin(
        &self,
        alloc: Global,
        lots: &[Lot],
        label: Label,
        count: u32,
        chan: ChanNo,
        pages: &PagePool,
    ) -> Result<Result<Vec<Lot>, Refusal>, NoMemory>
        ensures { IfOk result (λ r. ok_as r (λ v. v.items) ≡ rules.calloc_begin self.now lots.now label count chan pages.now) }
    {
        let span = match self.calloc_tests(lots, label, count, pages) {
            Ok(span) => span,
            Err(refusal) => return Ok(Err(refusal)),
        };
        let list = SgList::direct(alloc, span, Dir::Both)?;
        let id = LotId { label, first: 0 };
        let new = one_lot(alloc, wanted_lot(id, Kind::Area, chan, list))?;
        Ok(Ok(new))
    }

    /// Makes the tests of the end of an area.
    pub(crate) fn cfree_tests(&self, lots: &[Lot], book: &Book, label: Label) -> Result<(), Refusal>
        requires { All (λ lot. All (λ e. e.span.at + e.span.len ≤ length book.now.owners) lot.list.entries) lots.now }
        ensures { makes_none result ≡ rules.cfree_begin self.now lots.now label book.now.owners }
    {
        let lot = named(lots, label, Kind::Area)?;
        owned(self.me(), book, only_entry(lot).span)
    }
}
