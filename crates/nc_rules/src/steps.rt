//! The steps of a driver: its next step, what the step saw, and its effect on owners and pages.

use crate::lots::LotId;
use nc_num::{ChanNo, HartNo, Span};
use nc_plan::HartOp;

/// The next step of a driver.
#[derive(Clone, Copy, Debug, PartialEq, Eq)]
pub enum Next {
    /// Nothing: its script is at its end.
    End,
    /// A step without an operation of the hart: a start step, or a refusal.
    Start,
    /// It tries this slot word.
    Search(u32),
    /// It has its hart issue an operation.
    Op(HartOp),
    /// It claims a channel.
    Claim(ChanNo),
    /// It polls a channel: it reads Control, once done or error is set.
    Poll(ChanNo),
    /// It takes the message of a buffer's box.
    Take(u8),
}

/// What a step saw.
#[derive(Clone, Copy, Debug, PartialEq, Eq)]
pub enum Seen {
    /// Nothing.
    Nothing,
    /// A value of Control, by a poll.
    Control(u32),
    /// The channel was claimed.
    Claimed,
    /// The channel is granted to this hart.
    Busy(HartNo),
    /// What a register holds.
    Value(u64),
}

/// The effect of a step on the pages of the coherent pool.
#[derive(Clone, Copy, Debug, PartialEq, Eq)]
pub enum PageMove {
    /// Nothing.
    Stay,
    /// These pages are taken.
    Take(Span),
    /// These pages are given back.
    Give(Span),
}

/// The action of a step of a plan.
#[derive(Clone, Copy, Debug, PartialEq, Eq)]
pub enum Act {
    /// An operation of the hart.
    Op(HartOp),
    /// The claim of a channel.
    Claim(ChanNo),
    /// A poll of a channel.
    Poll(ChanNo),
    /// A take of a buffer's message.
    Take(u8),
}

/// The effect of a step on owners: on a range by itself, or on the bytes of a lot, with the grants, slots and pages
/// that go with these.
#[derive(Clone, Copy, Debug, PartialEq, Eq)]
pub enum Turn {
    /// Nothing.
    Stay,
    /// A range is being passed to a hart.
    Pass(Span, HartNo),
    /// A range is the hart's own.
    Own(Span),
    /// The lot is being lent to its channel. Where it was not lent before, its grants are added, and an area's pages
    /// are taken.
    Lend(LotId),
    /// The lot is the device's.
    Give(LotId),
    /// The lot is being taken back.
    Return(LotId),
    /// The lot is synced for the hart.
    Sync(LotId),
    /// The lot, an area, is the hart's own.
    Settle(LotId),
    /// The lot is gone: its grants end, its slots and pages are given back, and its bytes are the hart's own again, or
    /// the pool's if it was an area.
    End(LotId),
}

/// A step of a plan, and what it does to owners: two turns, one after the other.
#[derive(Clone, Copy, Debug, PartialEq, Eq)]
pub struct Step {
    /// What it does.
    pub act: Act,
    /// The first change of owners that comes with it.
    pub first: Turn,
    /// The second, over what the first one left.
    pub last: Turn,
}

/// The phase of the current operation.
#[derive(Clone, Copy, Debug, PartialEq, Eq)]
pub enum Phase {
    /// This many of its steps are done; an operation begins at 0.
    Steps(u32),
    /// It searches for a bounce slot, and tries this word next.
    Search(u32),
    /// It works through a plan, of which steps are left.
    Work,
}
