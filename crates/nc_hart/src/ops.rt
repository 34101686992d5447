//! What an operation needs of a hart's queue, and the entry that it adds there.

ghost use Rattle.std.specs.Prelude.{◌≡◌};
ghost use Rattle.nc_hart.specs.Issue.{cut, has_class, waits, marks, marker, payload, io_entry, entry_of, needs_entry, fence_clear, load_clear};

use nc_num::{Bytes, MemType};
use nc_plan::{HartOp, IoTarget, Payload};
use nc_queue::{Entry, Queue};

/// Returns a FENCE set restricted to W and O, the classes of a queue's entries (RISC-V FENCE).
#[tactic(auto, using(crate::proofs::CutSets::cut_rules))]
pub fn cut(set: u8) -> u8
    ensures { result ≡ cut set }
{
    set & 0b0101
}

/// Returns whether a set has W or O.
fn has_class(set: u8) -> bool
    ensures { result ≡ has_class set }
{
    set & 1 == 1 || set >> 2 & 1 == 1
}

/// Returns whether a fence waits: later loads or inputs may come only after the earlier entries of its predecessor set
/// have drained.
fn waits(pred: u8, succ: u8) -> bool
    ensures { result ≡ waits pred succ }
{
    has_class(pred) && (succ >> 1 & 1 == 1 || succ >> 3 & 1 == 1)
}

/// Returns whether a fence adds a marker to the queue.
fn marks(pred: u8, succ: u8) -> bool
    ensures { result ≡ marks pred succ }
{
    !waits(pred, succ) && has_class(pred) && has_class(succ)
}

/// Makes the marker of a fence.
fn marker(pred: u8, succ: u8) -> Entry
    ensures { result ≡ marker pred succ }
{
    Entry::Mark {
        pred: cut(pred),
        succ: cut(succ),
    }
}

/// Returns the bytes of a store, for a hart whose last load gave `last`.
fn payload(last: &Bytes, bytes: &Payload) -> Bytes
    ensures { result ≡ payload last.now bytes.now }
{
    match bytes {
        Payload::Given(given) => *given,
        Payload::Last => *last,
    }
}

/// Makes the entry of an IO store.
fn io_entry(target: IoTarget) -> Entry
    ensures { result ≡ io_entry target }
{
    match target {
        IoTarget::Reg {
            chan,
            off,
            width,
            value,
        } => Entry::Reg {
            chan,
            off,
            width,
            value,
        },
        IoTarget::Mail { buf, to } => Entry::Mail { buf, to },
        IoTarget::Lend {
            label,
            first,
            count,
        } => Entry::Lend {
            label,
            first,
            count,
        },
    }
}

/// Returns the entry that an operation adds to the queue, or None where it adds none.
pub(crate) fn entry_of(last: &Bytes, op: &HartOp) -> Option<Entry>
    ensures { result ≡ entry_of last.now op.now }
{
    match op {
        HartOp::Store { span, kind, bytes } => Some(Entry::Store {
            span: *span,
            bytes: payload(last, bytes),
            kind: *kind,
        }),
        HartOp::Cbo { op, block } => Some(Entry::Cbo {
            block: *block,
            op: *op,
        }),
        HartOp::Fence { pred, succ } => {
            if marks(*pred, *succ) {
                Some(marker(*pred, *succ))
            } else {
                None
            }
        }
        HartOp::IoStore(target) => Some(io_entry(*target)),
        HartOp::Mark { pred, succ } => Some(marker(*pred, *succ)),
        HartOp::Load { .. } | HartOp::IoLoad { .. } => None,
    }
}

/// Returns whether an operation adds an entry to the queue.
pub(crate) fn needs_entry(op: &HartOp) -> bool
    ensures { result ≡ needs_entry op.now }
{
    match op {
        HartOp::Store { .. } | HartOp::Cbo { .. } | HartOp::IoStore(_) | HartOp::Mark { .. } =>
            true,
        HartOp::Fence { pred, succ } => marks(*pred, *succ),
        HartOp::Load { .. } | HartOp::IoLoad { .. } => false,
    }
}

/// Returns whether a fence that waits finds no entry of its predecessor set; true for every other operation.
pub(crate) fn fence_clear(queue: &Queue, op: &HartOp) -> bool
    ensures { result ≡ fence_clear queue.now.entries op.now }
{
    match op {
        HartOp::Fence { pred, succ } => !(waits(*pred, *succ) && queue.holds(*pred)),
        HartOp::Load { .. }
        | HartOp::Store { .. }
        | HartOp::Cbo { .. }
        | HartOp::IoLoad { .. }
        | HartOp::IoStore(_)
        | HartOp::Mark { .. } => true,
    }
}

/// Returns whether an IO load, from memory or from a register, finds no entry of class O; true for every other
/// operation.
pub(crate) fn load_clear(queue: &Queue, op: &HartOp) -> bool
    ensures { result ≡ load_clear queue.now.entries op.now }
{
    match op {
        HartOp::Load { kind, .. } => queue.may_load(*kind),
        HartOp::IoLoad { .. } => queue.may_load(MemType::Io),
        HartOp::Store { .. }
        | HartOp::Cbo { .. }
        | HartOp::Fence { .. }
        | HartOp::IoStore(_)
        | HartOp::Mark { .. } => true,
    }
}
