//! The slots of lots.

ghost use Rattle.std.specs.Prelude.{◌≡◌, ◌<◌, true, length, position};
ghost use Rattle.nc_rules.specs.Lots.{lot_waits, some_lot_waits, with_slot, slot_given};
ghost use Rattle.nc_lots.specs.Spots.{without_entry, without_slot, IsSpot};

use crate::looks::lot_waits;
use nc_rules::Lot;

/// The position of an entry among lots.
#[derive(Clone, Copy, Debug, PartialEq, Eq)]
pub struct LotSpot {
    /// The index of the lot, from 0.
    pub lot: usize,
    /// The index of the entry in the lot, from 0.
    pub entry: u8,
}

/// Gives slot `k`, 0 to 63, to the first entry that bounces and has no slot, and returns the position of that entry.
/// Such an entry exists.
pub fn got(lots: &mut Vec<Lot>, k: u32) -> LotSpot
    requires slot { k < 64 }
    requires waits { some_lot_waits lots.old.items ≡ true }
    ensures items { lots.new.items ≡ slot_given k lots.old.items }
    ensures there { IsSpot result lots.new.items }
    ensures back { without_slot result lots.new.items ≡ lots.old.items }
{
    match first_waiting(lots) {
        Some(lot) => {
            let entry = give(&mut lots[lot], k);
            LotSpot { lot, entry }
        }
        None => unreachable!(),
    }
}

/// Takes its slot from the entry at a position, which exists. The entry then has no slot.
pub fn put_back(lots: &mut Vec<Lot>, at: LotSpot)
    requires there { IsSpot at lots.old.items }
    ensures { lots.new.items ≡ without_slot at lots.old.items }
{
    lots[at.lot].list.put_back(at.entry);
}

/// Returns the index of the first lot that waits for a slot.
fn first_waiting(lots: &[Lot]) -> Option<usize>
    ensures { result ≡ position lot_waits lots.now }
{
    lots.iter().position(lot_waits)
}

/// Gives slot `k` to the first entry of a lot that waits for one, and returns the index of that entry.
fn give(lot: &mut Lot, k: u32) -> u8
    requires slot { k < 64 }
    requires waits { lot_waits lot.old ≡ true }
    ensures lot { lot.new ≡ with_slot k lot.old }
    ensures there { result < length lot.new.list.entries }
    ensures back { without_entry result lot.new ≡ lot.old }
{
    match lot.list.next_bounced() {
        Some(i) => {
            lot.list.got(k);
            i
        }
        None => unreachable!(),
    }
}
