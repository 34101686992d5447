//! Queries about lots.

ghost use Rattle.std.specs.Prelude.{◌≡◌, ◌+◌, ◌<◌, ◌≤◌, IfSome, length, option_map, unwrap_or};
ghost use Rattle.std.specs.List.{find, list_any, Contains};
ghost use Rattle.nc_plan.specs.Parts.{is_too_big};
ghost use Rattle.nc_sg.specs.Lists.{IsEntry};
ghost use Rattle.nc_rules.specs.Lots.{DriverConfig, is_lot, is_labelled, is_named, lot_named, only_entry, bus_of_lot, lot_waits, some_lot_waits, same_kind};
ghost use Rattle.nc_rules.specs.Refusals.{is_big, has_big};

use nc_num::{Label, Span};
use nc_rules::{Kind, Lot, LotId};
use nc_sg::{Entry, device};

/// The bytes of a bounce slot.
const SLOT: u32 = 2048;

/// Where RAM starts on the bus.
const BUS: u32 = 0x8000_0000;

/// Returns whether a lot has the name `id`, its label and the index of its first entry.
pub fn is_lot(id: LotId, lot: &Lot) -> bool
    ensures { result ≡ is_lot id lot.now }
{
    lot.id.label.0 == id.label.0 && lot.id.first == id.first
}

fn is_labelled(label: Label, lot: &Lot) -> bool
    ensures { result ≡ is_labelled label lot.now }
{
    lot.id.label.0 == label.0
}

fn same_kind(kind: Kind, other: Kind) -> bool
    ensures { result ≡ same_kind kind other }
{
    match (kind, other) {
        (Kind::Single, Kind::Single)
        | (Kind::List, Kind::List)
        | (Kind::Area, Kind::Area)
        | (Kind::Copy, Kind::Copy) => true,
        (Kind::Single, Kind::List | Kind::Area | Kind::Copy)
        | (Kind::List, Kind::Single | Kind::Area | Kind::Copy)
        | (Kind::Area, Kind::Single | Kind::List | Kind::Copy)
        | (Kind::Copy, Kind::Single | Kind::List | Kind::Area) => false,
    }
}

fn is_named(label: Label, kind: Kind, lot: &Lot) -> bool
    ensures { result ≡ is_named label kind lot.now }
{
    is_labelled(label, lot) && same_kind(kind, lot.kind)
}

/// Returns the first lot of this label and kind. None exactly where no lot has both.
pub fn lot_named(lots: &[Lot], label: Label, kind: Kind) -> Option<&Lot>
    ensures first { option_map (λ l. l.now) result ≡ lot_named lots.now label kind }
    ensures one { IfSome result (λ l. Contains lots.now l.now) }
{
    for lot in lots {
        if is_named(label, kind, lot) {
            return Some(lot);
        }
    }
    None
}

/// Returns the first lot of this name. None exactly where no lot has it.
pub fn lot_of(lots: &[Lot], id: LotId) -> Option<&Lot>
    ensures first { option_map (λ l. l.now) result ≡ find (is_lot id) lots.now }
    ensures one { IfSome result (λ l. Contains lots.now l.now) }
{
    for lot in lots {
        if is_lot(id, lot) {
            return Some(lot);
        }
    }
    None
}

/// Returns whether some lot has this label.
pub fn has_label(lots: &[Lot], label: Label) -> bool
    ensures { result ≡ list_any (is_labelled label) lots.now }
{
    lots.iter().any(|lot| is_labelled(label, lot))
}

/// Returns the first entry of a lot, the only one where the lot is no scatter list. A lot without entries gives an
/// empty one. The range ends at 1,048,576 bytes of RAM at most, and a slot is below 64.
pub fn only_entry(lot: &Lot) -> Entry
    ensures value { result ≡ only_entry lot.now }
    ensures ends { result.span.at + result.span.len ≤ 1048576 }
    ensures slot { unwrap_or result.slot 0 < 64 }
    ensures entry { 0 < length lot.now.list.entries → IsEntry result }
{
    match lot.list.entries().first() {
        Some(entry) => *entry,
        None => Entry {
            span: Span { at: 0, len: 0 },
            bounced: false,
            slot: None,
        },
    }
}

/// Returns the bus address at which a lot that is no scatter list starts, as its channel sees it. The bounce slots
/// start at the place `slots_at`, which is at most 1,048,576.
pub fn bus_of_lot(slots_at: u32, lot: &Lot) -> u32
    requires slots { slots_at ≤ 1048576 }
    ensures { (f : DriverConfig) → f.slots_at ≡ slots_at → result ≡ bus_of_lot f lot.now }
{
    match lot.list.entries().first() {
        Some(entry) => BUS + device(slots_at, entry).at,
        None => BUS,
    }
}

/// Returns whether some entry of a lot bounces and has no slot.
pub fn lot_waits(lot: &Lot) -> bool
    ensures { result ≡ lot_waits lot.now }
{
    lot.list.next_bounced().is_some()
}

/// Returns whether some entry of these lots bounces and has no slot.
pub fn some_lot_waits(lots: &[Lot]) -> bool
    ensures { result ≡ some_lot_waits lots.now }
{
    lots.iter().any(lot_waits)
}

fn is_too_big(span: Span) -> bool
    ensures { result ≡ is_too_big span }
{
    SLOT - span.at % 8 < span.len
}

fn is_big(entry: &Entry) -> bool
    ensures { result ≡ is_big entry.now }
{
    entry.bounced && is_too_big(entry.span)
}

/// Returns whether some entry of a lot bounces and is too big for a slot. A slot has 2048 bytes, in which a range keeps
/// its place modulo 8.
pub fn has_big(lot: &Lot) -> bool
    ensures { result ≡ has_big lot.now }
{
    lot.list.entries().iter().any(is_big)
}
