//! The records of a run: one record is one line of the report.

use crate::answers::Answer;
use nc_cache::Origin;
use nc_env::CboOp;
use nc_model::{Owner, Touch};
use nc_num::{Bytes, ChanNo, HartNo, Place, Span};
use nc_plan::IoTarget;
use nc_scen::Event;
use nc_slots::TryAnswer;

/// The outcome of a told answer of the slot pool.
#[derive(Clone, Copy, Debug, PartialEq, Eq)]
pub enum ToldAnswer {
    /// The slot was got, and the core's word was free.
    Got,
    /// The slot was not got.
    Miss,
    /// The slot was got, but the core's word is held by this hart.
    Held(HartNo),
}

/// A record of a run. Places are offsets in RAM in bytes; a block is given by the place of its start.
#[derive(Clone, Copy, Debug, PartialEq, Eq)]
pub enum Record {
    /// An event that was done.
    Event(Event),
    /// A touch.
    Touched(Touch),
    /// A piece that a script loaded.
    Ld {
        /// The hart.
        hart: HartNo,
        /// The first place.
        at: Place,
        /// The bytes that it saw.
        bytes: Bytes,
    },
    /// A piece that a script stored: put in the store queue.
    St {
        /// The hart.
        hart: HartNo,
        /// The first place.
        at: Place,
        /// The bytes.
        bytes: Bytes,
    },
    /// A piece that a plan loaded.
    Pl {
        /// The hart.
        hart: HartNo,
        /// The first place.
        at: Place,
        /// The bytes that it saw.
        bytes: Bytes,
    },
    /// A piece that a plan stored: put in the store queue.
    Ps {
        /// The hart.
        hart: HartNo,
        /// The first place.
        at: Place,
        /// The bytes.
        bytes: Bytes,
    },
    /// A cache operation put in the store queue, by its effect.
    Cbo {
        /// The hart.
        hart: HartNo,
        /// The effect.
        op: CboOp,
        /// The block's start.
        at: Place,
    },
    /// A fence that waited or did nothing, with its sets as issued.
    Fence {
        /// The hart.
        hart: HartNo,
        /// The predecessor set.
        pred: u8,
        /// The successor set.
        succ: u8,
    },
    /// A marker put in the store queue, with its sets cut to W and O.
    Mark {
        /// The hart.
        hart: HartNo,
        /// The predecessor set.
        pred: u8,
        /// The successor set.
        succ: u8,
    },
    /// An IO store put in the store queue.
    Io {
        /// The hart.
        hart: HartNo,
        /// What it stores to.
        target: IoTarget,
    },
    /// A store left the queue.
    DrStore {
        /// The hart.
        hart: HartNo,
        /// The first place.
        at: Place,
        /// The bytes.
        bytes: Bytes,
    },
    /// A cache operation left the queue.
    DrCbo {
        /// The hart.
        hart: HartNo,
        /// The effect.
        op: CboOp,
        /// The block's start.
        at: Place,
    },
    /// An IO store left the queue.
    DrIo {
        /// The hart.
        hart: HartNo,
        /// What it stores to.
        target: IoTarget,
    },
    /// A marker left the queue.
    DrMark(HartNo),
    /// A copy of a block was got.
    Fill {
        /// The hart.
        hart: HartNo,
        /// The block's start.
        at: Place,
        /// Where it came from.
        from: Origin,
    },
    /// A dirty copy of a block was got.
    Own {
        /// The hart.
        hart: HartNo,
        /// The block's start.
        at: Place,
        /// Where it came from.
        from: Origin,
    },
    /// A dirty copy was written back.
    Wb {
        /// The hart.
        hart: HartNo,
        /// The block's start.
        at: Place,
        /// The block's bytes.
        bytes: Bytes,
    },
    /// A copy was dropped.
    Drop {
        /// The hart.
        hart: HartNo,
        /// The block's start.
        at: Place,
    },
    /// A channel read memory.
    Cr {
        /// The channel.
        chan: ChanNo,
        /// The first place.
        at: Place,
        /// The bytes.
        bytes: Bytes,
    },
    /// A channel wrote memory.
    Cw {
        /// The channel.
        chan: ChanNo,
        /// The first place.
        at: Place,
        /// The bytes.
        bytes: Bytes,
    },
    /// A write of a channel left no byte to write.
    Cd(ChanNo),
    /// A channel met an error.
    Ce {
        /// The channel.
        chan: ChanNo,
        /// The first bus address.
        bus: u64,
        /// The bytes that would have moved.
        len: u32,
    },
    /// Bytes got another owner.
    Ow {
        /// The bytes.
        span: Span,
        /// The owner.
        owner: Owner,
    },
    /// A try of a slot word.
    Try {
        /// The hart.
        hart: HartNo,
        /// The word.
        word: u32,
        /// What it found.
        answer: TryAnswer,
    },
    /// A told answer of the slot pool.
    Told {
        /// The hart.
        hart: HartNo,
        /// The word.
        word: u32,
        /// The outcome.
        answer: ToldAnswer,
    },
    /// A slot was given back.
    Back {
        /// The hart.
        hart: HartNo,
        /// The word.
        word: u32,
    },
    /// An operation was answered.
    Ans {
        /// The hart.
        hart: HartNo,
        /// The index of the operation in its script.
        op: u32,
        /// The answer.
        answer: Answer,
    },
}
