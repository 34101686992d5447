//! The answers of a script's operations, and of the machine.

use nc_cache::BusList;
use nc_env::Field;
use nc_model::Owner;
use nc_num::{Bytes, HartNo};
use nc_plan::SegList;

/// Why an operation is refused. This project's own, after the errors of the Linux DMA API where there are any.
#[derive(Clone, Copy, Debug, PartialEq, Eq)]
pub enum Refusal {
    /// The range, the area, the list or the text is empty.
    Empty,
    /// The range ends past its buffer, its coherent area or the translation table.
    BadRange,
    /// The hart has a mapping, list or area of this label.
    LabelUsed,
    /// The hart has none of this label and kind.
    NoLabel,
    /// A byte belongs to another owner: the first such byte's.
    NotYours(Owner),
    /// A cache operation that the call needs is disabled by this field.
    CboOff(Field),
    /// The range does not fit in a bounce slot.
    TooBig,
    /// Every bounce slot was found held.
    NoSlot,
    /// The channel is claimed, by this hart.
    ChannelBusy(HartNo),
    /// `menvcfg.PBMTE` is 0, so there are no memory types.
    NoPbmt,
    /// The pool has no run of as many free pages.
    NoPage,
    /// The list has this many entries.
    BadCount(u32),
    /// The cache operation is disabled by this field.
    IllegalCbo(Field),
    /// Translation of this virtual address faults; the number is its PBMT field.
    PageFault(u32, u8),
    /// No register has this offset and width, in bytes.
    BadMmio(u16, u8),
}

/// The answer of an operation, for those that end with one. Bus addresses count from 0x8000_0000, RAM's first byte.
#[derive(Clone, Copy, Debug, PartialEq, Eq)]
pub enum Answer {
    /// A mapping, by the bus address of its device range.
    Mapped(u32),
    /// A mapping or list is unmapped.
    Unmapped,
    /// A mapping is synced for the hart.
    Cpu,
    /// A mapping is synced for the device.
    Dev,
    /// A scatter list, by its ranges on the bus.
    Segments(SegList),
    /// A scatter list that is refused.
    NoSegments(Refusal),
    /// A coherent area, by its bus address.
    Allocated(u32),
    /// A coherent area is freed.
    Freed,
    /// A coherent area is the channel's.
    Given,
    /// A coherent area is the hart's again.
    Taken,
    /// A buffer is handed to another hart.
    Handed,
    /// A buffer is taken.
    Took,
    /// A channel is claimed.
    Claimed,
    /// A channel is stopped or released.
    Released,
    /// A channel's registers are set.
    Set,
    /// A channel is started.
    Started,
    /// A transfer is done, with this value of Control.
    Done(u32),
    /// A transfer met an error, with this value of Control.
    Error(u32),
    /// The value that a register holds.
    Value(u64),
    /// A register is written.
    Wrote,
    /// A copy is done.
    CopyDone,
    /// A copy failed, with this value of Control.
    CopyFailed(u32),
    /// The operation is refused.
    Refused(Refusal),
}

/// The result of an operation that a hart issued to the machine.
#[derive(Debug, Drop)]
pub enum Issued {
    /// A load, with the bytes of its span and the transfers that it made.
    Loaded {
        /// The bytes, as many as the span has.
        bytes: Bytes,
        /// The transfers, in order.
        bus: BusList,
    },
    /// An entry was put in the store queue.
    Queued,
    /// A fence that waited, or did nothing.
    Passed,
    /// A load of a register, with its value.
    Value(u64),
}
