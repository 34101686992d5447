//! What a step changes beside the machine: the driver that makes it, the owners, and the count of touches.

ghost use Rattle.std.specs.Prelude.{◌≡◌, ◌≤◌, ◌<◌, ◌+◌, true, is_none, length, slice_index_or, slice_set, All, IfOk, OnOk, OnErr};
ghost use Rattle.nc_rules.specs.declared.steps.Next.TheVariants as nexts;
ghost use Rattle.nc_rules.specs.Driver as due;
ghost use Rattle.nc_rules.specs.Events.{is_idle_step};
ghost use Rattle.nc_rules.specs.Outcomes.{got_word, told_slots};
ghost use Rattle.nc_rules.specs.Lots.{lot_id};
ghost use Rattle.nc_rules.specs.World.{no_driver, owners_moved, grants_added, grants_ended, slots_back, pages_moved, one_more};
ghost use Rattle.nc_scripts.specs.Drivers.{IsSeenAt, IsLentAt};
ghost use Rattle.nc_scripts.specs.Scripts.{is_act, IsRangeIn};
ghost use Rattle.nc_holds.specs.Holds.{CanAddAll, AreBack, MayMovePages};
ghost use Rattle.nc_moves.specs.MovesView.{moves_view};
ghost use Rattle.nc_world.specs.Looks.{touches_after, IsTransactionIn, transaction_touch_in};
ghost use Rattle.nc_world.specs.Steps.{IsBeside, is_going, went_on};

use nc_coherent::PagePool;
use nc_driver::Driver;
use nc_log::Log;
use nc_machine::Machine;
use nc_model::{Grant, Owner, Touch};
use nc_moves::Moves;
use nc_num::{ChanNo, HartNo, Label, MapId, NoMemory, Span};
use nc_own::{Access, Actor, Book};
use nc_pdma::ChanStep;
use nc_rules::{Next, PageMove, Seen};
use nc_slots::Slots;

/// More changes of owners than a step makes.
const CHANGES: u32 = 72;

/// Makes room for what one event adds to the caches, to the book and to the records.
pub(crate) fn reserve(machine: &mut Machine, book: &mut Book, log: &mut Log) -> Result<(), NoMemory>
    ensures spare { OnOk result (1 ≤ machine.new.spare) }
    ensures changes { OnOk result (72 ≤ book.new.spare) }
    ensures room { OnOk result (96 ≤ log.new.room) }
    ensures machine { machine.new.machine ≡ machine.old.machine }
    ensures owners { book.new.owners ≡ book.old.owners }
    ensures grants { book.new.grants ≡ book.old.grants }
    ensures records { log.new.records ≡ log.old.records }
{
    machine.reserve()?;
    book.reserve(CHANGES)?;
    log.reserve()
}

// ---- a driver goes on

/// Makes the next step of hart h's driver, which saw `saw`.
pub(crate) fn issue_step(
    drivers: &mut Vec<Driver>,
    h: HartNo,
    next: &Next,
    saw: Seen,
    book: &Book,
    pages: &PagePool,
) -> Result<Moves, NoMemory>
    requires hart { h.0 < length drivers.old.items }
    requires coming { due.next_of (slice_index_or drivers.old.items h.0 no_driver) ≡ next.now }
    requires going { is_going next.now ≡ true }
    requires seen { IsSeenAt next.now saw }
    requires beside { IsBeside (slice_index_or drivers.old.items h.0 no_driver) book.now.owners pages.now }
    ensures driver { IfOk result (λ m. drivers.new.items ≡ slice_set drivers.old.items h.0 (went_on (slice_index_or drivers.old.items h.0 no_driver) book.now.owners pages.now next.now saw).driver) }
    ensures moves { IfOk result (λ m. moves_view m ≡ (went_on (slice_index_or drivers.old.items h.0 no_driver) book.now.owners pages.now next.now saw).moves) }
    ensures err { OnErr result (drivers.new.items ≡ drivers.old.items) }
{
    match next {
        Next::Start => start(drivers, h, book, pages),
        Next::Op(_) | Next::Claim(_) | Next::Poll(_) | Next::Take(_) => done(drivers, h, saw),
        Next::End | Next::Search(_) => unreachable!(),
    }
}

/// The driver of hart h makes a step without an operation of the hart.
fn start(
    drivers: &mut Vec<Driver>,
    h: HartNo,
    book: &Book,
    pages: &PagePool,
) -> Result<Moves, NoMemory>
    requires hart { h.0 < length drivers.old.items }
    requires next { due.next_of (slice_index_or drivers.old.items h.0 no_driver) ≡ nexts.Start }
    requires beside { IsBeside (slice_index_or drivers.old.items h.0 no_driver) book.now.owners pages.now }
    ensures driver { IfOk result (λ m. drivers.new.items ≡ slice_set drivers.old.items h.0 (due.started (slice_index_or drivers.old.items h.0 no_driver) book.now.owners pages.now).driver) }
    ensures moves { IfOk result (λ m. moves_view m ≡ (due.started (slice_index_or drivers.old.items h.0 no_driver) book.now.owners pages.now).moves) }
    ensures err { OnErr result (drivers.new.items ≡ drivers.old.items) }
{
    let driver = &mut drivers[usize::from(h.0)];
    driver.start(book, pages)
}

/// Tells the driver of hart h what the step saw that the machine makes.
fn done(drivers: &mut Vec<Driver>, h: HartNo, saw: Seen) -> Result<Moves, NoMemory>
    requires hart { h.0 < length drivers.old.items }
    requires next { is_act (due.next_of (slice_index_or drivers.old.items h.0 no_driver)) ≡ true }
    requires seen { IsSeenAt (due.next_of (slice_index_or drivers.old.items h.0 no_driver)) saw }
    ensures driver { IfOk result (λ m. drivers.new.items ≡ slice_set drivers.old.items h.0 (due.done (slice_index_or drivers.old.items h.0 no_driver) saw).driver) }
    ensures moves { IfOk result (λ m. moves_view m ≡ (due.done (slice_index_or drivers.old.items h.0 no_driver) saw).moves) }
    ensures err { OnErr result (drivers.new.items ≡ drivers.old.items) }
{
    let driver = &mut drivers[usize::from(h.0)];
    driver.done(saw)
}

/// Tells the driver of hart h whether it got the slot word that it tried.
pub(crate) fn told(drivers: &mut Vec<Driver>, h: HartNo, got: bool) -> Result<Moves, NoMemory>
    requires { h.0 < length drivers.old.items }
    ensures driver { IfOk result (λ m. drivers.new.items ≡ slice_set drivers.old.items h.0 (due.told (slice_index_or drivers.old.items h.0 no_driver) got).driver) }
    ensures moves { IfOk result (λ m. moves_view m ≡ (due.told (slice_index_or drivers.old.items h.0 no_driver) got).moves) }
    ensures err { OnErr result (drivers.new.items ≡ drivers.old.items) }
{
    let driver = &mut drivers[usize::from(h.0)];
    driver.told(got)
}

/// Tells the driver of hart h that a token has left its queue.
pub(crate) fn lent(
    drivers: &mut Vec<Driver>,
    h: HartNo,
    label: Label,
    first: u8,
    count: u8,
) -> Result<Moves, NoMemory>
    requires hart { h.0 < length drivers.old.items }
    requires lent { IsLentAt (slice_index_or drivers.old.items h.0 no_driver).lots (lot_id label first) }
    ensures driver { IfOk result (λ m. drivers.new.items ≡ slice_set drivers.old.items h.0 (due.lent (slice_index_or drivers.old.items h.0 no_driver) label first).driver) }
    ensures moves { IfOk result (λ m. moves_view m ≡ (due.lent (slice_index_or drivers.old.items h.0 no_driver) label first).moves) }
    ensures err { OnErr result (drivers.new.items ≡ drivers.old.items) }
{
    let driver = &mut drivers[usize::from(h.0)];
    driver.lent(label, first, count)
}

// ---- a slot word

/// Whether a slot word is free, by the hart that holds it.
pub(crate) fn is_free(holder: Option<HartNo>) -> bool
    ensures { result ≡ is_none holder }
{
    match holder {
        None => true,
        Some(_) => false,
    }
}

/// Returns whether a word is got that was told as got or missed: one that is held is not.
pub(crate) fn is_got(told: bool, holder: Option<HartNo>) -> bool
    ensures { result ≡ got_word told holder }
{
    told && is_free(holder)
}

/// Takes slot word k for hart h where the word is free, if the hart was told that it got it.
pub(crate) fn take_word(slots: &mut Slots, h: HartNo, k: u32, got: bool)
    requires { k < length slots.old }
    ensures { slots.new ≡ told_slots got slots.old h k }
{
    if got {
        let _ = slots.try_word(h, k);
    }
}

// ---- the moves are carried out

/// Moves what a call of hart h's driver moves: owners, then new grants, then grants that end, slots and pages.
pub(crate) fn carry(
    book: &mut Book,
    slots: &mut Slots,
    pages: &mut PagePool,
    h: HartNo,
    moves: &Moves,
)
    requires room { length moves.now.transfers + length moves.now.grants ≤ book.old.spare }
    requires inside { All (λ t. IsRangeIn (length book.old.owners) t.0) moves.now.transfers }
    requires grants { CanAddAll (length book.old.owners) book.old.grants moves.now.grants }
    requires backs { AreBack h slots.old moves.now.backs }
    requires pages { MayMovePages pages.old moves.now.pages }
    ensures owners { book.new.owners ≡ owners_moved book.old.owners moves.now.transfers }
    ensures grants { book.new.grants ≡ grants_ended (grants_added book.old.grants moves.now.grants) moves.now.ended }
    ensures slots { slots.new ≡ slots_back slots.old moves.now.backs }
    ensures pages { pages.new ≡ pages_moved pages.old moves.now.pages }
{
    turn(book, moves.transfers.as_slice());
    grant(book, moves.grants.as_slice());
    end(book, moves.ended.as_slice());
    give_back(slots, h, moves.backs.as_slice());
    move_pages(pages, moves.pages);
}

/// Makes changes of owners, in order.
fn turn(book: &mut Book, transfers: &[(Span, Owner)])
    requires room { length transfers.now ≤ book.old.spare }
    requires inside { All (λ t. IsRangeIn (length book.old.owners) t.0) transfers.now }
    ensures owners { book.new.owners ≡ owners_moved book.old.owners transfers.now }
    ensures size { length book.new.owners ≡ length book.old.owners }
    ensures grants { book.new.grants ≡ book.old.grants }
    ensures room { book.old.spare ≤ book.new.spare + length transfers.now }
{
    for (span, owner) in transfers {
        book.transfer(*span, *owner);
    }
}

/// Adds grants, in order.
fn grant(book: &mut Book, grants: &[Grant])
    requires room { length grants.now ≤ book.old.spare }
    requires can { CanAddAll (length book.old.owners) book.old.grants grants.now }
    ensures owners { book.new.owners ≡ book.old.owners }
    ensures grants { book.new.grants ≡ grants_added book.old.grants grants.now }
{
    for g in grants {
        book.add(*g);
    }
}

/// Ends the grants of mappings.
fn end(book: &mut Book, ended: &[MapId])
    ensures owners { book.new.owners ≡ book.old.owners }
    ensures grants { book.new.grants ≡ grants_ended book.old.grants ended.now }
{
    for id in ended {
        book.remove(*id);
    }
}

/// Gives slots back that hart h has.
fn give_back(slots: &mut Slots, h: HartNo, words: &[u32])
    requires { AreBack h slots.old words.now }
    ensures { slots.new ≡ slots_back slots.old words.now }
{
    for k in words {
        slots.back(h, *k);
    }
}

/// Takes pages, or gives them back.
fn move_pages(pages: &mut PagePool, moved: PageMove)
    requires { MayMovePages pages.old moved }
    ensures { pages.new ≡ pages_moved pages.old moved }
{
    match moved {
        PageMove::Stay => {}
        PageMove::Take(span) => pages.take(span),
        PageMove::Give(span) => pages.give(span),
    }
}

// ---- counts, and a channel's step

/// Returns a count plus one, at most 2^64 - 1.
pub(crate) fn one_more(n: u64) -> u64
    ensures { result ≡ one_more n }
{
    n.saturating_add(1)
}

/// Returns the count of touches after an event; `touch` is the event's touch, if it is one.
pub(crate) fn touches_after(touches: u64, touch: Option<Touch>) -> u64
    ensures { result ≡ touches_after touches touch }
{
    match touch {
        None => touches,
        Some(_) => one_more(touches),
    }
}

/// Whether a channel's step was disabled.
pub(crate) fn is_idle(moved: &ChanStep) -> bool
    ensures { result ≡ is_idle_step moved.now }
{
    match moved {
        ChanStep::Idle => true,
        ChanStep::Moved { .. } | ChanStep::Error { .. } => false,
    }
}

/// The touch that a channel's transaction is, if it is one.
pub(crate) fn transaction_touch(
    book: &Book,
    chan: ChanNo,
    access: Access,
    moved: &ChanStep,
) -> Option<Touch>
    requires { IsTransactionIn (length book.now.owners) moved.now }
    ensures { result ≡ transaction_touch_in book.now.owners book.now.grants chan access moved.now }
{
    match moved {
        ChanStep::Moved { span, .. } => book.may(Actor::Chan(chan), access, *span).err(),
        ChanStep::Idle | ChanStep::Error { .. } => None,
    }
}
