//! The tests, each of which can refuse an operation.

ghost use Rattle.std.specs.Prelude.{◌≡◌, ◌+◌, ◌<◌, ◌≤◌, ◌^◌, true, false, List, length, All, IfOk, IfSome, IsSome};
ghost use Rattle.std.specs.List.{Contains, list_any};
ghost use Rattle.nc_num.specs.declared.names.HartNo.{HartNo};
ghost use Rattle.nc_num.specs.declared.places.Span.{Span};
ghost use Rattle.nc_model.specs.Rights.{is_thread};
ghost use Rattle.nc_model.specs.declared.owners.Owner.{Owner};
ghost use Rattle.nc_own.specs.Books.{transferred};
ghost use Rattle.nc_rules.specs.Lots.{DriverConfig};
ghost use Rattle.nc_rules.specs.Refusals.{has_big};
ghost use Rattle.nc_rules.specs.Refusals as rules;
ghost use Rattle.nc_checks.specs.Due.{ok_as};
ghost use Rattle.nc_checks.specs.Owned.{lent_all, IsOther, IsBehind};

use nc_env::{CboOp, Illegal};
use nc_lots::{has_big, has_label, lot_named, some_lot_waits};
use nc_model::Owner;
use nc_num::{Dir, HartNo, Label, MapId, Place, Span};
use nc_own::Book;
use nc_plan::{CboOff, Effects, needs};
use nc_rules::{Kind, Lot, LotId, Refusal};

/// Tests that a length is not 0.
pub(crate) fn some_bytes(len: u32) -> Result<(), Refusal>
    ensures { result ≡ rules.some_bytes len }
{
    if len == 0 {
        Err(Refusal::Empty)
    } else {
        Ok(())
    }
}

/// Returns the `len` bytes of a range from the offset `off` in it on, as a range.
pub(crate) fn part_of(range: Span, off: u32, len: u32) -> Result<Span, Refusal>
    requires { range.at + range.len < 2 ^ 32 }
    ensures value { result ≡ rules.part_of range off len }
    ensures len { IfOk result (λ part. part.len ≡ len) }
    ensures ends { IfOk result (λ part. part.at + part.len ≤ range.at + range.len) }
{
    if u64::from(off) + u64::from(len) <= u64::from(range.len) {
        Ok(Span {
            at: range.at + off,
            len,
        })
    } else {
        Err(Refusal::BadRange)
    }
}

/// Tests that no lot has this label.
pub(crate) fn unused(lots: &[Lot], label: Label) -> Result<(), Refusal>
    ensures { result ≡ rules.unused lots.now label }
{
    if has_label(lots, label) {
        Err(Refusal::LabelUsed)
    } else {
        Ok(())
    }
}

/// The lot of this label and kind.
pub(crate) fn named(lots: &[Lot], label: Label, kind: Kind) -> Result<&Lot, Refusal>
    ensures value { ok_as result (λ lot. lot.now) ≡ rules.named lots.now label kind }
    ensures one { IfOk result (λ lot. Contains lots.now lot.now) }
{
    match lot_named(lots, label, kind) {
        Some(lot) => Ok(lot),
        None => Err(Refusal::NoLabel),
    }
}

/// Whether an entry that bounces finds no room in a slot.
fn some_big(lots: &[Lot]) -> bool
    ensures { result ≡ list_any has_big lots.now }
{
    lots.iter().any(|lot| has_big(lot))
}

/// Tests that each entry that bounces fits into a slot.
fn small_enough(lots: &[Lot]) -> Result<(), Refusal>
    ensures { result ≡ rules.small_enough lots.now }
{
    if some_big(lots) {
        Err(Refusal::TooBig)
    } else {
        Ok(())
    }
}

/// Tests that some slots exist where an entry needs one.
fn slots_there(slots: u32, lots: &[Lot]) -> Result<(), Refusal>
    ensures { (f : DriverConfig) → f.slots ≡ slots → result ≡ rules.slots_there f lots.now }
{
    if slots == 0 && some_lot_waits(lots) {
        Err(Refusal::NoSlot)
    } else {
        Ok(())
    }
}

/// Returns the new lots where each entry that bounces may get one of `slots` slots.
pub(crate) fn placeable(slots: u32, lots: Vec<Lot>) -> Result<Vec<Lot>, Refusal>
    ensures { (f : DriverConfig) → f.slots ≡ slots → ok_as result (λ v. v.items) ≡ rules.placeable f lots.items }
{
    small_enough(&lots)?;
    slots_there(slots, &lots)?;
    Ok(lots)
}

/// Returns the effect of a cache operation that the hart may do (RISC-V CMO 1.0).
pub(crate) fn legal(effect: Result<CboOp, Illegal>) -> Result<CboOp, Refusal>
    ensures { result ≡ rules.legal effect }
{
    match effect {
        Ok(op) => Ok(op),
        Err(Illegal(field)) => Err(Refusal::IllegalCbo(field)),
    }
}

/// Tests that the operations of both plans of a direction are enabled (RISC-V CMO 1.0).
pub(crate) fn lendable(effects: &Effects, dir: Dir) -> Result<(), Refusal>
    ensures { result ≡ rules.lendable effects.now dir }
{
    planned(needs(effects, dir))
}

/// Tests that the operations that a plan needs are enabled (RISC-V CMO 1.0).
pub(crate) fn planned(needed: Result<(), CboOff>) -> Result<(), Refusal>
    ensures { result ≡ rules.planned needed }
{
    match needed {
        Ok(()) => Ok(()),
        Err(CboOff(field)) => Err(Refusal::CboOff(field)),
    }
}

/// Tests that each byte of a range is the hart's own.
pub(crate) fn owned(me: HartNo, book: &Book, range: Span) -> Result<(), Refusal>
    requires { range.at + range.len ≤ length book.now.owners }
    ensures { result ≡ rules.owned me book.now.owners range }
{
    told(book.first_other(me, range))
}

/// Returns the refusal by the first other owner that was found.
fn told(found: Option<(Place, Owner)>) -> Result<(), Refusal>
    ensures { (me : HartNo) (owners : List Owner) (range : Span) → IsOther me owners range found → result ≡ rules.owned me owners range }
{
    match found {
        None => Ok(()),
        Some((_, owner)) => Err(Refusal::NotYours(owner)),
    }
}

/// Tests that each byte of several ranges, which are to be lent together as the entries of a lot, is the hart's own.
/// The ranges before a range count as lent already.
pub(crate) fn owned_from(me: HartNo, id: LotId, book: &Book, ranges: &[Span]) -> Result<(), Refusal>
    requires few { length ranges.now ≤ 16 }
    requires first { id.first ≤ 1 }
    requires inside { All (λ range. range.at + range.len ≤ length book.now.owners) ranges.now }
    requires ends { All (λ range. range.at + range.len < 2 ^ 32) ranges.now }
    ensures { result ≡ rules.owned_from me id 0 book.now.owners ranges.now }
{
    for i in 0..ranges.len() {
        told(other_of(me, id, book, &ranges[..i], ranges[i]))?;
    }
    Ok(())
}

/// The first place of a range that is not the hart's own once others have been lent, and its owner.
fn other_of(
    me: HartNo,
    id: LotId,
    book: &Book,
    lent: &[Span],
    range: Span,
) -> Option<(Place, Owner)>
    requires few { length lent.now ≤ 16 }
    requires first { id.first ≤ 1 }
    requires inside { range.at + range.len ≤ length book.now.owners }
    requires ends { range.at + range.len < 2 ^ 32 }
    requires lent_ends { All (λ range. range.at + range.len < 2 ^ 32) lent.now }
    ensures { IsOther me (lent_all me id 0 book.now.owners lent.now) range result }
{
    let mut found = book.first_other(me, range);
    for i in 0..lent.len() {
        let map = MapId {
            hart: me,
            label: id.label,
            entry: id.first + i as u8,
        };
        found = nearer(found, range, lent[i], Owner::Lending(map));
    }
    found
}

/// The first place of a range that is not the hart's own, once another range has been given to another owner.
fn nearer(
    found: Option<(Place, Owner)>,
    range: Span,
    lent: Span,
    owner: Owner,
) -> Option<(Place, Owner)>
    requires range { range.at + range.len < 2 ^ 32 }
    requires lent { lent.at + lent.len < 2 ^ 32 }
    ensures { (me : HartNo) (owners : List Owner) → is_thread me owner ≡ false → range.at + range.len ≤ length owners → IsOther me owners range found → IsOther me (transferred owners lent owner) range result }
{
    let at = range.at.max(lent.at);
    let end = (range.at + range.len).min(lent.at + lent.len);
    if end <= at {
        return found;
    }
    if is_behind(found, at) {
        Some((Place(at), owner))
    } else {
        found
    }
}

/// Returns whether a place that was found is at or after another; true where none was found.
fn is_behind(found: Option<(Place, Owner)>, at: u32) -> bool
    ensures behind { result ≡ true → IsBehind at found }
    ensures before { result ≡ false → IfSome found (λ p. p.0.0 < at) }
    ensures some { result ≡ false → IsSome found }
{
    match found {
        None => true,
        Some((place, _)) => at <= place.0,
    }
}
