//! The harts: the bytes that their store queues give to a load, and the change of one hart among them.

ghost use Rattle.std.specs.Prelude.{◌≡◌, ◌≤◌, ◌<◌, ◌+◌, ◌^◌, length, is_none, slice_index_or, slice_set, IfNone, IfSome, IsTrue};
ghost use Rattle.std.specs.List.{list_any, range_with_len};
ghost use Rattle.nc_num.specs.Sizes.{IsBlockSize};
ghost use Rattle.nc_queue.specs.Entries.{Fits, entry_gives};
ghost use Rattle.nc_queue.specs.Rules.{drained, gives};
ghost use Rattle.nc_hart.specs.Issue.{can_issue, issued, OpFits};
ghost use Rattle.nc_rules.specs.Machine.{no_hart};
ghost use Rattle.nc_rules.specs.Calls.{has_loaded, without_entry};
ghost use Rattle.nc_machine.specs.Loads.{overlaid};

use nc_env::CboOp;
use nc_hart::Hart;
use nc_num::{Bytes, HartNo, Place, Span, block_of};
use nc_plan::HartOp;
use nc_queue::{Entry, Queue};

/// Returns the byte that an entry gives for a place: that of a store, or 0 of a zero. None where it gives none.
fn given(e: &Entry, x: Place, size: u32) -> Option<u8>
    requires size { IsBlockSize size }
    requires fits { Fits size e.now }
    ensures { result ≡ entry_gives size e.now x.0 }
{
    match e {
        Entry::Store { span, bytes, .. } => {
            if span.at <= x.0 && x.0 - span.at < span.len {
                Some(bytes.as_slice()[(x.0 - span.at) as usize])
            } else {
                None
            }
        }
        Entry::Cbo {
            block,
            op: CboOp::Zero,
        } => {
            if block_of(x, size) == *block {
                Some(0)
            } else {
                None
            }
        }
        Entry::Cbo { .. }
        | Entry::Reg { .. }
        | Entry::Mail { .. }
        | Entry::Lend { .. }
        | Entry::Mark { .. } => None,
    }
}

/// Returns the byte that the newest entry gives for a place, or None where no entry gives one.
fn queued(queue: &Queue, x: Place, size: u32) -> Option<u8>
    requires size { queue.now.size ≡ size }
    ensures { result ≡ gives size queue.now.entries x.0 }
{
    let _ = queue.len();
    let e = queue.get(queue.newest(x)?)?;
    given(&e, x, size)
}

/// Returns the bytes from the place `at` on: each from the newest entry that gives it, else from `below`.
pub(crate) fn overlaid(queue: &Queue, at: u32, below: &Bytes, size: u32) -> Bytes
    requires size { queue.now.size ≡ size }
    requires short { length below.now ≤ 8 }
    requires ends { at + length below.now < 2 ^ 32 }
    ensures { result ≡ overlaid size queue.now.entries at below.now }
{
    if queue.len() == 0 {
        return *below;
    }
    let mut cells = [0; 8];
    let below = below.as_slice();
    for (i, byte) in below.iter().enumerate() {
        cells[i] = queued(queue, Place(at + i as u32), size).unwrap_or(*byte);
    }
    Bytes::of(&cells[..below.len()])
}

/// Returns whether some byte of a span is given by no entry.
pub(crate) fn reaches_below(queue: &Queue, span: Span, size: u32) -> bool
    requires size { queue.now.size ≡ size }
    requires ends { span.at + span.len < 2 ^ 32 }
    ensures { result ≡ list_any (λ x. is_none (gives size queue.now.entries x)) (range_with_len span.at span.len) }
{
    if queue.len() == 0 {
        return span.len != 0;
    }
    (span.at..span.at + span.len).any(|x| queued(queue, Place(x), size).is_none())
}

/// Has hart h issue an operation that it may issue.
pub(crate) fn put(harts: &mut Vec<Hart>, h: HartNo, op: HartOp)
    requires hart { h.0 < length harts.old.items }
    requires can { IsTrue (can_issue (slice_index_or harts.old.items h.0 no_hart) op) }
    requires fits { OpFits (slice_index_or harts.old.items h.0 no_hart).last op }
    ensures { harts.new.items ≡ slice_set harts.old.items h.0 (issued (slice_index_or harts.old.items h.0 no_hart) op) }
{
    let hart = &mut harts[usize::from(h.0)];
    hart.issue(op);
}

/// Sets the bytes of hart h's last load.
pub(crate) fn give(harts: &mut Vec<Hart>, h: HartNo, bytes: Bytes)
    requires { h.0 < length harts.old.items }
    ensures { harts.new.items ≡ slice_set harts.old.items h.0 (has_loaded (slice_index_or harts.old.items h.0 no_hart) bytes) }
{
    let hart = &mut harts[usize::from(h.0)];
    hart.loaded(bytes);
}

/// Removes entry i from the queue of hart h and returns it. None where it may not drain; then the harts are unchanged.
pub(crate) fn leave(harts: &mut Vec<Hart>, h: HartNo, i: u8) -> Option<Entry>
    requires { h.0 < length harts.old.items }
    ensures entry { result ≡ drained (slice_index_or harts.old.items h.0 no_hart).queue.size (slice_index_or harts.old.items h.0 no_hart).queue.entries i }
    ensures fits { IfSome result (Fits (slice_index_or harts.old.items h.0 no_hart).queue.size) }
    ensures none { IfNone result (harts.new.items ≡ harts.old.items) }
    ensures some { IfSome result (λ _. harts.new.items ≡ slice_set harts.old.items h.0 (without_entry (slice_index_or harts.old.items h.0 no_hart) i)) }
{
    let hart = &mut harts[usize::from(h.0)];
    hart.drain(i)
}
