//! The changes that turns make to lots.

ghost use Rattle.std.specs.Prelude.{◌≡◌, ◌++◌, not, OnOk, OnErr, filter, take};
ghost use Rattle.nc_rules.specs.Lots.{is_lot, is_wanted};
ghost use Rattle.nc_rules.specs.Turns.{with_side, set_side, lots_after, without_wanted};

use crate::looks::is_lot;
use nc_num::NoMemory;
use nc_rules::{Lot, LotId, Side, Turn};

/// Applies a turn to the lots: the lot that the turn names gets a side or is removed. The others stay, in order.
pub fn turn(lots: &mut Vec<Lot>, turn: Turn)
    ensures { lots.new.items ≡ lots_after turn lots.old.items }
{
    match turn {
        Turn::Stay | Turn::Pass(_, _) | Turn::Own(_) => {}
        Turn::Lend(id) => set_side(lots, Side::Lending, id),
        Turn::Give(id) => set_side(lots, Side::Device, id),
        Turn::Return(id) => set_side(lots, Side::Returning, id),
        Turn::Sync(id) => set_side(lots, Side::Synced, id),
        Turn::Settle(id) => set_side(lots, Side::Own, id),
        Turn::End(id) => end(lots, id),
    }
}

/// Removes the lots that are not lent yet. The others stay, in order.
pub fn drop_wanted(lots: &mut Vec<Lot>)
    ensures { lots.new.items ≡ without_wanted lots.old.items }
{
    lots.retain(|lot| !is_wanted(lot.side));
}

/// Appends the lots `new` to `lots`, in order.
///
/// # Errors
///
/// `NoMemory` where memory runs out; then `lots` is unchanged.
pub fn append(lots: &mut Vec<Lot>, new: Vec<Lot>) -> Result<(), NoMemory>
    ensures ok { OnOk result (lots.new.items ≡ lots.old.items ++ new.items) }
    ensures err { OnErr result (lots.new.items ≡ lots.old.items) }
{
    let mut new = new;
    lots.append(&mut new)?;
    Ok(())
}

/// Keeps the first `n` lots, or all where there are no more than `n`.
pub fn cut(lots: &mut Vec<Lot>, n: usize)
    ensures { lots.new.items ≡ take n lots.old.items }
{
    lots.truncate(n);
}

fn is_wanted(side: Side) -> bool
    ensures { result ≡ is_wanted side }
{
    match side {
        Side::Wanted => true,
        Side::Lending | Side::Device | Side::Returning | Side::Synced | Side::Own => false,
    }
}

fn to_side(lot: &mut Lot, side: Side, id: LotId)
    ensures { lot.new ≡ with_side side id lot.old }
{
    if is_lot(id, lot) {
        lot.side = side;
    }
}

fn set_side(lots: &mut Vec<Lot>, side: Side, id: LotId)
    ensures { lots.new.items ≡ set_side side id lots.old.items }
{
    for i in 0..lots.len() {
        to_side(&mut lots[i], side, id);
    }
}

fn end(lots: &mut Vec<Lot>, id: LotId)
    ensures { lots.new.items ≡ filter (λ lot. not (is_lot id lot)) lots.old.items }
{
    lots.retain(|lot| !is_lot(id, lot));
}
