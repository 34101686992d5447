//! The events of the machine.

use nc_num::{Block, ChanNo, HartNo};

/// An atomic step of the machine. This project's own.
#[derive(Clone, Copy, Debug, PartialEq, Eq)]
pub enum Event {
    /// The hart's next step of its script.
    Issue(HartNo),
    /// The hart's driver tries the next slot word of its search.
    Try(HartNo),
    /// The hart's driver is told what another pool answered about that word: whether the slot was got.
    Told(HartNo, bool),
    /// The drain of an entry of the hart's store queue, 0 for the oldest; skipped where no such entry exists.
    Drain(HartNo, u8),
    /// A copy of the block comes into the hart's cache.
    Fill(HartNo, Block),
    /// The hart's copy of the block is evicted.
    Evict(HartNo, Block),
    /// The channel reads memory once.
    ChanRead(ChanNo),
    /// The channel writes memory once.
    ChanWrite(ChanNo),
}
