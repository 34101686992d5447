//! The rules of what may drain and which byte a queue gives, over entries with the oldest first.

ghost use Rattle.std.specs.Prelude.{◌≡◌, ◌<◌, length, IsTrue, IfSome};
ghost use Rattle.std.specs.List.{list_any};
ghost use Rattle.nc_num.specs.Sizes.{IsBlockSize};
ghost use Rattle.nc_queue.specs.Ring.{listed};
ghost use Rattle.nc_queue.specs.Entries.{is_o, has_block, lends_label};
ghost use Rattle.nc_queue.specs.Rules.{any_in, meets, orders, held_back, is_free, may_leave, may_drain, newest, lends};

use crate::entry::{Entry, entry_block, gives_byte, has_block, in_set, is_o, lends_label};
use crate::ring::Entries;
use nc_num::Label;

/// Returns whether some entry is of a class in the set.
pub(crate) fn any_in(entries: Entries, set: u8) -> bool
    ensures { result ≡ any_in (listed entries.entry) set }
{
    entries
        .older
        .iter()
        .chain(entries.newer.iter())
        .any(|e| in_set(e, set))
}

/// Returns whether some entry is of class O.
pub(crate) fn any_o(entries: Entries) -> bool
    ensures { result ≡ list_any is_o (listed entries.entry) }
{
    entries
        .older
        .iter()
        .chain(entries.newer.iter())
        .any(|e| is_o(e))
}

/// Returns whether a token of the label is among the entries.
pub(crate) fn any_lends(entries: Entries, label: Label) -> bool
    ensures { result ≡ lends (listed entries.entry) label.0 }
{
    entries
        .older
        .iter()
        .chain(entries.newer.iter())
        .any(|e| lends_label(e, label))
}

/// Returns whether some entry has the block.
fn any_of_block(entries: Entries, block: u32, size: u32) -> bool
    requires { IsBlockSize size }
    ensures { result ≡ list_any (λ e. has_block size block e) (listed entries.entry) }
{
    entries
        .older
        .iter()
        .chain(entries.newer.iter())
        .any(|e| has_block(e, block, size))
}

/// Returns whether there is a block and some entry has it.
fn meets(entries: Entries, block: Option<u32>, size: u32) -> bool
    requires { IsBlockSize size }
    ensures { result ≡ meets size (listed entries.entry) block }
{
    match block {
        Some(b) => any_of_block(entries, b, size),
        None => false,
    }
}

/// Returns whether `m` is a marker that orders `e` after one of the entries before `m`.
fn holds_back(m: &Entry, earlier: Entries, e: &Entry) -> bool
    ensures { result ≡ list_any (λ a. orders m.now a e.now) (listed earlier.entry) }
{
    match m {
        Entry::Mark { pred, succ } => in_set(e, *succ) && any_in(earlier, *pred),
        _ => false,
    }
}

/// Returns whether some marker among these holds back an entry that comes after them.
fn held_back(before: Entries, e: &Entry) -> bool
    ensures { result ≡ held_back (listed before.entry) e.now }
{
    for j in 0..before.len() {
        if holds_back(before.get(j), before.first(j), e) {
            return true;
        }
    }
    false
}

/// Returns whether an entry that is no marker may drain after these.
fn is_free(before: Entries, e: &Entry, size: u32) -> bool
    requires { IsBlockSize size }
    ensures { result ≡ is_free size (listed before.entry) e.now }
{
    !meets(before, entry_block(e, size), size)
        && !(is_o(e) && any_o(before))
        && !held_back(before, e)
}

/// Returns whether an entry may drain after these.
fn may_leave(before: Entries, e: &Entry, size: u32) -> bool
    requires { IsBlockSize size }
    ensures { result ≡ may_leave size (listed before.entry) e.now }
{
    match e {
        Entry::Mark { pred, .. } => !any_in(before, *pred),
        Entry::Store { .. }
        | Entry::Cbo { .. }
        | Entry::Reg { .. }
        | Entry::Mail { .. }
        | Entry::Lend { .. } => is_free(before, e, size),
    }
}

/// Returns whether entry `i`, counted from the oldest, may drain.
#[tactic(auto, unfolding(crate::specs::Rules::may_drain))]
pub(crate) fn may_drain(entries: Entries, i: usize, size: u32) -> bool
    requires { IsBlockSize size }
    ensures value { result ≡ may_drain size (listed entries.entry) i }
    ensures there { IsTrue result → i < length (listed entries.entry) }
{
    i < entries.len() && may_leave(entries.first(i), entries.get(i), size)
}

/// Returns the index of the newest entry that gives the byte of a place.
pub(crate) fn newest(entries: Entries, x: u32, size: u32) -> Option<usize>
    requires { IsBlockSize size }
    ensures value { result ≡ newest size (listed entries.entry) x }
    ensures there { IfSome result (λ i. i < length (listed entries.entry)) }
{
    let mut i = entries.len();
    while 0 < i {
        i -= 1;
        if gives_byte(entries.get(i), x, size) {
            return Some(i);
        }
    }
    None
}
