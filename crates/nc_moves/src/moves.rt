//! What a step changes beside the machine.

ghost use Rattle.std.specs.Prelude.{◌≡◌, ◌≤◌, ◌<◌, [], OnOk, IfOk, All, length};
ghost use Rattle.nc_rules.specs.Turns.{moved, turned_by, lots_after, slots_wanted, given_up};
ghost use Rattle.nc_moves.specs.MovesView.{moves_view, IsFew};
ghost use Rattle.nc_moves.specs.Turned.{joined, of_turn, of_lots, after, of_one, of_lot, lent_lot, ended_lot};

use crate::entries::{push_end, push_grants, push_ids, push_side, push_slots, push_wanted};
use crate::lists::{GrantList, IdList, SlotList, TransferList};
use crate::sides::{is_of, is_wanted, page_move, pages_given, pages_taken, side_after};
use nc_model::Owner;
use nc_num::{HartNo, NoMemory};
use nc_rules::{Answer, Lot, PageMove, Side, Turn};
use std::alloc::Global;

/// What a step changes beside the driver and the machine, and the answer that it gives.
#[derive(Debug, Drop)]
pub struct Moves {
    /// Ranges and their new owners, to be transferred in order.
    pub transfers: TransferList,
    /// New grants of the channels.
    pub grants: GrantList,
    /// Mappings whose grants end.
    pub ended: IdList,
    /// Bounce slots that are given back.
    pub backs: SlotList,
    /// The change of the pages of the coherent pool.
    pub pages: PageMove,
    /// The answer of the operation, where the step ends the operation with one.
    pub answer: Option<Answer>,
}

impl Moves {
    /// Makes moves that have an answer and nothing else. It takes no memory.
    pub fn answer(alloc: Global, answer: Option<Answer>) -> Moves
        ensures { moves_view result ≡ moved [] answer }
    {
        Moves {
            transfers: TransferList::new(alloc),
            grants: GrantList::new(alloc),
            ended: IdList::new(alloc),
            backs: SlotList::new(alloc),
            pages: PageMove::Stay,
            answer,
        }
    }

    /// Returns what the turns `first` and then `last` of hart `me` do to its lots, with an answer. The bounce slots
    /// start at the place `slots_at`, which is at most 1,048,576. Turns that name no lot read none.
    ///
    /// # Errors
    ///
    /// `NoMemory` where memory runs out; only a turn that changes owners takes memory.
    #[tactic(auto, unfolding(nc_rules::specs::Turns::turned_by))]
    pub fn turn(
        alloc: Global,
        me: HartNo,
        slots_at: u32,
        lots: &[Lot],
        first: Turn,
        last: Turn,
        answer: Option<Answer>,
    ) -> Result<Moves, NoMemory>
        requires slots { slots_at ≤ 1048576 }
        requires names { All (λ lot. lot.id.first < 2) lots.now }
        requires few { IsFew (turned_by me slots_at lots.now first last answer) }
        ensures { IfOk result (λ m. moves_view m ≡ turned_by me slots_at lots.now first last answer) }
    {
        let mut moves = Moves::answer(alloc, answer);
        push_turn(&mut moves, me, slots_at, lots, Turn::Stay, first)?;
        push_turn(&mut moves, me, slots_at, lots, first, last)?;
        Ok(moves)
    }

    /// Returns what an operation changes that gives up before it has lent anything: the slots of the lots that are not
    /// lent yet are given back, and the operation has this answer.
    ///
    /// # Errors
    ///
    /// `NoMemory` where memory runs out; only such slots take memory.
    pub fn given_up(alloc: Global, lots: &[Lot], answer: Answer) -> Result<Moves, NoMemory>
        requires few { length (slots_wanted lots.now) ≤ 32 }
        ensures { IfOk result (λ m. moves_view m ≡ given_up lots.now answer) }
    {
        let mut moves = Moves::answer(alloc, Some(answer));
        push_wanted(&mut moves.backs, lots)?;
        Ok(moves)
    }
}

/// Appends what `turn` does to the lots that the turn `first` left.
fn push_turn(
    moves: &mut Moves,
    me: HartNo,
    slots_at: u32,
    lots: &[Lot],
    first: Turn,
    turn: Turn,
) -> Result<(), NoMemory>
    requires slots { slots_at ≤ 1048576 }
    requires names { All (λ lot. lot.id.first < 2) lots.now }
    requires few { IsFew (joined (moves_view moves.old) (of_turn me slots_at (lots_after first lots.now) turn)) }
    ensures { OnOk result (moves_view moves.new ≡ joined (moves_view moves.old) (of_turn me slots_at (lots_after first lots.now) turn)) }
{
    match turn {
        Turn::Stay => Ok(()),
        Turn::Pass(range, to) => moves.transfers.push(range, Owner::Passing(me, to)),
        Turn::Own(range) => moves.transfers.push(range, Owner::Thread(me)),
        Turn::Lend(_)
        | Turn::Give(_)
        | Turn::Return(_)
        | Turn::Sync(_)
        | Turn::Settle(_)
        | Turn::End(_) => push_lots(moves, me, slots_at, lots, first, turn),
    }
}

/// Appends what `turn`, which names a lot, does to each lot that the turn `first` left.
fn push_lots(
    moves: &mut Moves,
    me: HartNo,
    slots_at: u32,
    lots: &[Lot],
    first: Turn,
    turn: Turn,
) -> Result<(), NoMemory>
    requires slots { slots_at ≤ 1048576 }
    requires names { All (λ lot. lot.id.first < 2) lots.now }
    requires few { IsFew (joined (moves_view moves.old) (of_lots me slots_at first turn lots.now)) }
    ensures { OnOk result (moves_view moves.new ≡ joined (moves_view moves.old) (of_lots me slots_at first turn lots.now)) }
{
    for lot in lots {
        push_one(moves, me, slots_at, lot, first, turn)?;
    }
    Ok(())
}

/// Appends what `turn` does to a lot after the turn `first`.
fn push_one(
    moves: &mut Moves,
    me: HartNo,
    slots_at: u32,
    lot: &Lot,
    first: Turn,
    turn: Turn,
) -> Result<(), NoMemory>
    requires slots { slots_at ≤ 1048576 }
    requires name { lot.now.id.first < 2 }
    requires few { IsFew (joined (moves_view moves.old) (of_one me slots_at turn (after first lot.now))) }
    ensures { OnOk result (moves_view moves.new ≡ joined (moves_view moves.old) (of_one me slots_at turn (after first lot.now))) }
{
    match side_after(first, lot) {
        Some(side) => {
            if is_of(turn, lot) {
                push_lot(moves, me, slots_at, lot, side, turn)
            } else {
                Ok(())
            }
        }
        None => Ok(()),
    }
}

/// Appends what a turn that names a lot does to it where it has this side.
fn push_lot(
    moves: &mut Moves,
    me: HartNo,
    slots_at: u32,
    lot: &Lot,
    side: Side,
    turn: Turn,
) -> Result<(), NoMemory>
    requires slots { slots_at ≤ 1048576 }
    requires name { lot.now.id.first < 2 }
    requires few { IsFew (joined (moves_view moves.old) (of_lot me slots_at (record lot.now { side = side }) turn)) }
    ensures { OnOk result (moves_view moves.new ≡ joined (moves_view moves.old) (of_lot me slots_at (record lot.now { side = side }) turn)) }
{
    match turn {
        Turn::Stay | Turn::Pass(_, _) | Turn::Own(_) => Ok(()),
        Turn::Lend(_) => push_lent(moves, me, slots_at, lot, side),
        Turn::Give(_) => push_side(&mut moves.transfers, me, Side::Device, lot),
        Turn::Return(_) => push_side(&mut moves.transfers, me, Side::Returning, lot),
        Turn::Sync(_) => push_side(&mut moves.transfers, me, Side::Synced, lot),
        Turn::Settle(_) => push_side(&mut moves.transfers, me, Side::Own, lot),
        Turn::End(_) => push_ended(moves, me, lot),
    }
}

/// Appends the lending of a lot. Where the lot was not lent before, its grants are added, and an area's pages are
/// taken.
fn push_lent(
    moves: &mut Moves,
    me: HartNo,
    slots_at: u32,
    lot: &Lot,
    side: Side,
) -> Result<(), NoMemory>
    requires slots { slots_at ≤ 1048576 }
    requires name { lot.now.id.first < 2 }
    requires few { IsFew (joined (moves_view moves.old) (lent_lot me slots_at (record lot.now { side = side }))) }
    ensures { OnOk result (moves_view moves.new ≡ joined (moves_view moves.old) (lent_lot me slots_at (record lot.now { side = side }))) }
{
    push_side(&mut moves.transfers, me, Side::Lending, lot)?;
    if is_wanted(side) {
        push_grants(&mut moves.grants, me, slots_at, lot)?;
    }
    moves.pages = page_move(moves.pages, pages_taken(lot, side));
    Ok(())
}

/// Appends the end of a lot: its bytes are the hart's or the pool's, its grants end, and its slots and pages are given
/// back.
fn push_ended(moves: &mut Moves, me: HartNo, lot: &Lot) -> Result<(), NoMemory>
    requires name { lot.now.id.first < 2 }
    requires few { IsFew (joined (moves_view moves.old) (ended_lot me lot.now)) }
    ensures { OnOk result (moves_view moves.new ≡ joined (moves_view moves.old) (ended_lot me lot.now)) }
{
    push_end(&mut moves.transfers, me, lot)?;
    push_ids(&mut moves.ended, me, lot)?;
    push_slots(&mut moves.backs, lot)?;
    moves.pages = page_move(moves.pages, pages_given(lot));
    Ok(())
}
