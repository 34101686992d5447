//! What is moved entry by entry of a lot.

ghost use Rattle.std.specs.Prelude.{◌≡◌, ◌+◌, ◌<◌, ◌≤◌, ◌++◌, OnOk, length};
ghost use Rattle.nc_rules.specs.Lots.{map_id, each_entry, grant_of, slots_held};
ghost use Rattle.nc_rules.specs.Turns.{to_side, to_end, ids, slots_wanted, last_owner};
ghost use Rattle.nc_rules.specs.Lots as rules;
ghost use Rattle.nc_sg.specs.Lists.{IsEntry};

use crate::lists::{GrantList, IdList, SlotList, TransferList};
use crate::sides::{is_area, is_wanted};
use nc_model::{Grant, Owner};
use nc_num::{HartNo, MapId, NoMemory};
use nc_rules::{Lot, LotId, Side};
use nc_sg::{Entry, device};

/// Returns the mapping that entry i of a lot is.
fn map_id(me: HartNo, id: LotId, i: usize) -> MapId
    requires few { id.first + i < 256 }
    ensures { result ≡ map_id me id i }
{
    MapId {
        hart: me,
        label: id.label,
        entry: id.first + i as u8,
    }
}

fn owner_of_side(id: MapId, side: Side) -> Owner
    ensures { result ≡ rules.owner_of_side id side }
{
    match side {
        Side::Wanted | Side::Own => Owner::Thread(id.hart),
        Side::Lending => Owner::Lending(id),
        Side::Device => Owner::Device(id),
        Side::Returning => Owner::Returning(id),
        Side::Synced => Owner::Synced(id),
    }
}

/// Returns the owner of the bytes of a lot after the lot's end.
fn last_owner(me: HartNo, lot: &Lot) -> Owner
    ensures { result ≡ last_owner me lot.now }
{
    if is_area(lot.kind) {
        Owner::Pool
    } else {
        Owner::Thread(me)
    }
}

/// Returns an entry as the grant of the lot's channel.
fn grant_of(slots_at: u32, lot: &Lot, id: MapId, entry: &Entry) -> Grant
    requires slots { slots_at ≤ 1048576 }
    requires entry { IsEntry entry.now }
    ensures { result ≡ grant_of slots_at lot.now id entry.now }
{
    Grant {
        id,
        buffer: entry.span,
        device: device(slots_at, entry),
        dir: lot.list.dir(),
        chan: lot.chan,
    }
}

/// Appends a transfer of each entry's bytes to the owner of this side.
pub(crate) fn push_side(
    transfers: &mut TransferList,
    me: HartNo,
    side: Side,
    lot: &Lot,
) -> Result<(), NoMemory>
    requires name { lot.now.id.first < 2 }
    requires few { length (transfers.old ++ to_side me side lot.now) ≤ 34 }
    ensures { OnOk result (transfers.new ≡ transfers.old ++ to_side me side lot.now) }
{
    let entries = lot.list.entries();
    for i in 0..entries.len() {
        let owner = owner_of_side(map_id(me, lot.id, i), side);
        transfers.push(entries[i].span, owner)?;
    }
    Ok(())
}

/// Appends a transfer of each entry's bytes to their owner after the lot's end.
pub(crate) fn push_end(transfers: &mut TransferList, me: HartNo, lot: &Lot) -> Result<(), NoMemory>
    requires few { length (transfers.old ++ to_end me lot.now) ≤ 34 }
    ensures { OnOk result (transfers.new ≡ transfers.old ++ to_end me lot.now) }
{
    let owner = last_owner(me, lot);
    let entries = lot.list.entries();
    for entry in entries {
        transfers.push(entry.span, owner)?;
    }
    Ok(())
}

/// Appends a grant of each entry to the lot's channel.
pub(crate) fn push_grants(
    grants: &mut GrantList,
    me: HartNo,
    slots_at: u32,
    lot: &Lot,
) -> Result<(), NoMemory>
    requires slots { slots_at ≤ 1048576 }
    requires name { lot.now.id.first < 2 }
    requires few { length (grants.old ++ each_entry me lot.now (grant_of slots_at lot.now)) ≤ 32 }
    ensures { OnOk result (grants.new ≡ grants.old ++ each_entry me lot.now (grant_of slots_at lot.now)) }
{
    let entries = lot.list.entries();
    for i in 0..entries.len() {
        let id = map_id(me, lot.id, i);
        grants.push(grant_of(slots_at, lot, id, &entries[i]))?;
    }
    Ok(())
}

/// Appends the mapping of each entry, whose grant ends.
pub(crate) fn push_ids(ended: &mut IdList, me: HartNo, lot: &Lot) -> Result<(), NoMemory>
    requires name { lot.now.id.first < 2 }
    requires few { length (ended.old ++ ids me lot.now) ≤ 32 }
    ensures { OnOk result (ended.new ≡ ended.old ++ ids me lot.now) }
{
    for i in 0..lot.list.entries().len() {
        ended.push(map_id(me, lot.id, i))?;
    }
    Ok(())
}

/// Appends the slots of the entries, which are given back.
pub(crate) fn push_slots(backs: &mut SlotList, lot: &Lot) -> Result<(), NoMemory>
    requires few { length (backs.old ++ slots_held lot.now) ≤ 32 }
    ensures { OnOk result (backs.new ≡ backs.old ++ slots_held lot.now) }
{
    let entries = lot.list.entries();
    for entry in entries {
        if let Some(slot) = entry.slot {
            backs.push(slot)?;
        }
    }
    Ok(())
}

/// Appends the slots of the lots that are not lent yet, which are given back.
pub(crate) fn push_wanted(backs: &mut SlotList, lots: &[Lot]) -> Result<(), NoMemory>
    requires few { length (backs.old ++ slots_wanted lots.now) ≤ 32 }
    ensures { OnOk result (backs.new ≡ backs.old ++ slots_wanted lots.now) }
{
    for lot in lots {
        if is_wanted(lot.side) {
            push_slots(backs, lot)?;
        }
    }
    Ok(())
}
