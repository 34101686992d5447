//! A log of records, with room for those of one event.

ghost use Rattle.std.specs.Prelude.{◌≡◌, ◌≤◌, ◌<◌, ◌+◌, ◌*◌, ◌^◌, ◌++◌, [], ◌∷◌, length, All, OnOk};
ghost use Rattle.nc_hart.specs.Issue.{payload};
ghost use Rattle.nc_rules.specs.Records as rules;
ghost use Rattle.nc_moves.specs.MovesView.{moves_view};
ghost use Rattle.nc_log.specs.Logs.{HasPlace, OpHasPlace, IssuedHasPlaces, EntryHasPlace, loaded_records, fence_record, issued_records};

use crate::records::RecordList;
use nc_cache::{BusRec, Origin};
use nc_hart::cut;
use nc_model::{Owner, Touch};
use nc_moves::Moves;
use nc_num::{Block, Bytes, ChanNo, HartNo, NoMemory, Place, Span};
use nc_pdma::ChanStep;
use nc_plan::{HartOp, IoTarget, Payload};
use nc_queue::Entry;
use nc_rules::{Answer, Issued, Record, ToldAnswer};
use nc_slots::TryAnswer;
use std::alloc::Global;
use std::marker::Model;

/// More records than one event has.
const ROOM: usize = 96;

/// A log of records, in order. Contracts see the records, and the number of further records for which there is room.
#[derive(Drop)]
pub struct Log {
    items: Vec<Record>,
}

impl Model for Log {
    ghost use Rattle.std.specs.Prelude.{◌-◌, vec_len, vec_capacity};
    ghost use Rattle.nc_log.specs.Logs.{LogView};

    ghost Value = { LogView };

    ghost view = { λ l. record { records = l.items.items; room = vec_capacity l.items - vec_len l.items } };
}

impl Log {
    /// Makes an empty log.
    pub fn new(alloc: Global) -> Log
        ensures { result.records ≡ [] }
    {
        Log {
            items: Vec::new(alloc),
        }
    }

    /// Makes room for the records of one event: 96 or more.
    ///
    /// # Errors
    ///
    /// `NoMemory` where memory runs out; the records are unchanged.
    pub fn reserve(&mut self) -> Result<(), NoMemory>
        ensures room { OnOk result (96 ≤ self.new.room) }
        ensures records { self.new.records ≡ self.old.records }
    {
        self.items.reserve(ROOM)?;
        Ok(())
    }

    /// Returns the records, in order.
    pub fn as_slice(&self) -> &[Record]
        ensures { result.now ≡ self.now.records }
    {
        &self.items
    }

    /// Returns the records, and leaves the log empty.
    pub fn take(&mut self) -> RecordList
        ensures taken { result ≡ self.old.records }
        ensures none { self.new.records ≡ [] }
    {
        let empty = Vec::new(*self.items.allocator());
        RecordList::new(std::mem::replace(&mut self.items, empty))
    }

    /// Removes the records. The allocation stays, and so does the room in it.
    pub fn clear(&mut self)
        ensures { self.new.records ≡ [] }
    {
        self.items.clear();
    }

    /// Appends a record. There is room for one.
    pub fn push(&mut self, entry: &Record)
        requires room { 1 ≤ self.old.room }
        ensures records { self.new.records ≡ self.old.records ++ entry.now ∷ [] }
        ensures room { self.old.room ≤ self.new.room + 1 }
    {
        let added = self.items.extend_from_slice(std::slice::from_ref(entry));
        match added {
            Ok(()) => {}
            Err(_) => unreachable!(),
        }
    }

    /// Appends the record of a touch, or nothing where there is none. There is room for one record.
    pub fn touch(&mut self, touch: Option<Touch>)
        requires room { 1 ≤ self.old.room }
        ensures records { self.new.records ≡ self.old.records ++ rules.touch_records touch }
        ensures room { self.old.room ≤ self.new.room + 1 }
    {
        if let Some(touch) = touch {
            self.push(&Record::Touched(touch));
        }
    }

    /// Appends the records of bus transfers, in order. The block size is `size` bytes, and there is room for a record
    /// of each transfer.
    pub fn transfers(&mut self, size: u32, bus: &[BusRec])
        requires places { All (HasPlace size) bus.now }
        requires room { length bus.now ≤ self.old.room }
        ensures records { self.new.records ≡ self.old.records ++ rules.transfer_records size bus.now }
        ensures room { self.old.room ≤ self.new.room + length bus.now }
    {
        for transfer in bus {
            self.push(&transfer_record(size, transfer));
        }
    }

    /// Appends the records of an operation that hart h issued, by the machine's answer. The block size is `size` bytes;
    /// `by_script` tells whether the operation is one of the script's own accesses; `last` has the bytes of the hart's
    /// last load. There is room for 7 records.
    pub fn issued(
        &mut self,
        size: u32,
        h: HartNo,
        by_script: bool,
        op: &HartOp,
        last: &Bytes,
        issued: &Issued,
    )
        requires block { OpHasPlace size op.now }
        requires places { IssuedHasPlaces size issued.now }
        requires room { 7 ≤ self.old.room }
        ensures records { self.new.records ≡ self.old.records ++ issued_records size h by_script op.now last.now issued.now }
        ensures room { self.old.room ≤ self.new.room + 7 }
    {
        match op {
            HartOp::Load { span, .. } => self.loaded(size, h, by_script, Place(span.at), issued),
            HartOp::Store { span, bytes, .. } => {
                self.stored(h, by_script, Place(span.at), bytes, last);
            }
            HartOp::Cbo { op, block } => self.push(&Record::Cbo {
                hart: h,
                op: *op,
                at: start_of(size, *block),
            }),
            HartOp::Fence { pred, succ } => self.push(&fence_record(h, *pred, *succ, issued)),
            HartOp::IoLoad { .. } => {}
            HartOp::IoStore(target) => self.push(&Record::Io {
                hart: h,
                target: *target,
            }),
            HartOp::Mark { pred, succ } => self.push(&mark_record(h, *pred, *succ)),
        }
    }

    /// Appends the records of a load and its transfers, by the machine's answer.
    fn loaded(&mut self, size: u32, h: HartNo, by_script: bool, at: Place, issued: &Issued)
        requires places { IssuedHasPlaces size issued.now }
        requires room { 7 ≤ self.old.room }
        ensures records { self.new.records ≡ self.old.records ++ loaded_records size h by_script at.0 issued.now }
        ensures room { self.old.room ≤ self.new.room + 7 }
    {
        if let Issued::Loaded { bytes, bus } = issued {
            self.transfers(size, bus.as_slice());
            self.push(&load_record(h, by_script, at, bytes));
        }
    }

    /// Appends the record of a store, of bytes that are given or those of the last load.
    fn stored(&mut self, h: HartNo, by_script: bool, at: Place, bytes: &Payload, last: &Bytes)
        requires room { 1 ≤ self.old.room }
        ensures records { self.new.records ≡ self.old.records ++ rules.store_record by_script h at.0 (payload last.now bytes.now) ∷ [] }
        ensures room { self.old.room ≤ self.new.room + 1 }
    {
        match bytes {
            Payload::Given(bytes) => self.push(&store_record(h, by_script, at, bytes)),
            Payload::Last => self.push(&store_record(h, by_script, at, last)),
        }
    }

    /// Appends the record of an entry that left hart h's queue. The block size is `size` bytes, and there is room for
    /// one record.
    pub fn drained(&mut self, size: u32, h: HartNo, e: &Entry)
        requires place { EntryHasPlace size e.now }
        requires room { 1 ≤ self.old.room }
        ensures records { self.new.records ≡ self.old.records ++ rules.entry_record size h e.now ∷ [] }
        ensures room { self.old.room ≤ self.new.room + 1 }
    {
        self.push(&entry_record(size, h, e));
    }

    /// Appends the records of ranges and their new owners, in order. There is room for a record of each.
    pub fn owners(&mut self, transfers: &[(Span, Owner)])
        requires room { length transfers.now ≤ self.old.room }
        ensures records { self.new.records ≡ self.old.records ++ rules.owner_records transfers.now }
        ensures room { self.old.room ≤ self.new.room + length transfers.now }
    {
        for (span, owner) in transfers {
            self.push(&Record::Ow {
                span: *span,
                owner: *owner,
            });
        }
    }

    /// Appends the records of slots that hart h gives back.
    fn backs(&mut self, h: HartNo, words: &[u32])
        requires room { length words.now ≤ self.old.room }
        ensures records { self.new.records ≡ self.old.records ++ rules.back_records h words.now }
        ensures room { self.old.room ≤ self.new.room + length words.now }
    {
        for word in words {
            self.push(&Record::Back {
                hart: h,
                word: *word,
            });
        }
    }

    /// Appends the record of the answer of operation n, where there is one.
    fn answer(&mut self, h: HartNo, n: u32, answer: Option<Answer>)
        requires room { 1 ≤ self.old.room }
        ensures records { self.new.records ≡ self.old.records ++ rules.answered h n answer }
    {
        if let Some(answer) = answer {
            self.push(&Record::Ans {
                hart: h,
                op: n,
                answer,
            });
        }
    }

    /// Appends the records of what a call of hart h's driver moves: owners, slots that are given back, and the answer
    /// of operation n. There is room for 67 records.
    pub fn moves(&mut self, h: HartNo, n: u32, moves: &Moves)
        requires room { 67 ≤ self.old.room }
        ensures records { self.new.records ≡ self.old.records ++ rules.moves_records h n (moves_view moves.now) }
    {
        self.owners(moves.transfers.as_slice());
        self.backs(h, moves.backs.as_slice());
        self.answer(h, n, moves.answer);
    }

    /// Appends the record of a try of slot word `word` by hart h, which found it held by this hart, or free where
    /// `holder` is None. There is room for one record.
    pub fn tried(&mut self, h: HartNo, word: u32, holder: Option<HartNo>)
        requires room { 1 ≤ self.old.room }
        ensures records { self.new.records ≡ self.old.records ++ rules.try_records h word holder }
        ensures room { self.old.room ≤ self.new.room + 1 }
    {
        let answer = match holder {
            None => TryAnswer::Got,
            Some(g) => TryAnswer::Held(g),
        };
        self.push(&Record::Try {
            hart: h,
            word,
            answer,
        });
    }

    /// Appends the record of an answer that the search of hart h was told of slot word `word`: `got` is what it was
    /// told, and `holder` the hart that holds the word. There is room for one record.
    pub fn told(&mut self, h: HartNo, word: u32, got: bool, holder: Option<HartNo>)
        requires room { 1 ≤ self.old.room }
        ensures records { self.new.records ≡ self.old.records ++ rules.told_records h word got holder }
        ensures room { self.old.room ≤ self.new.room + 1 }
    {
        let answer = match holder {
            _ if !got => ToldAnswer::Miss,
            None => ToldAnswer::Got,
            Some(g) => ToldAnswer::Held(g),
        };
        self.push(&Record::Told {
            hart: h,
            word,
            answer,
        });
    }

    /// Appends the record of a channel's read, or nothing where it was idle. There is room for two records.
    pub fn chan_read(&mut self, chan: ChanNo, step: &ChanStep)
        requires room { 2 ≤ self.old.room }
        ensures records { self.new.records ≡ self.old.records ++ rules.read_records chan step.now }
    {
        match step {
            ChanStep::Idle => {}
            ChanStep::Moved { span, bytes, .. } => self.push(&Record::Cr {
                chan,
                at: Place(span.at),
                bytes: *bytes,
            }),
            ChanStep::Error { bus, len } => self.push(&Record::Ce {
                chan,
                bus: *bus,
                len: *len,
            }),
        }
    }

    /// Appends the records of a channel's write, or nothing where it was idle. There is room for two records.
    pub fn chan_write(&mut self, chan: ChanNo, step: &ChanStep)
        requires room { 2 ≤ self.old.room }
        ensures records { self.new.records ≡ self.old.records ++ rules.write_records chan step.now }
    {
        match step {
            ChanStep::Idle => {}
            ChanStep::Moved { span, bytes, done } => {
                self.push(&Record::Cw {
                    chan,
                    at: Place(span.at),
                    bytes: *bytes,
                });
                if *done {
                    self.push(&Record::Cd(chan));
                }
            }
            ChanStep::Error { bus, len } => self.push(&Record::Ce {
                chan,
                bus: *bus,
                len: *len,
            }),
        }
    }
}

/// Returns the place of a block's start.
fn start_of(size: u32, block: Block) -> Place
    requires { size * block.0 < 2 ^ 32 }
    ensures { result ≡ rules.start_of size block.0 }
{
    Place(size * block.0)
}

fn transfer_record(size: u32, transfer: &BusRec) -> Record
    requires { HasPlace size transfer.now }
    ensures { result ≡ rules.transfer_record size transfer.now }
{
    match transfer {
        BusRec::Fill { hart, block, from } => fill_record(*hart, start_of(size, *block), from),
        BusRec::Own { hart, block, from } => own_record(*hart, start_of(size, *block), from),
        BusRec::WriteBack { hart, block, bytes } => Record::Wb {
            hart: *hart,
            at: start_of(size, *block),
            bytes: *bytes,
        },
        BusRec::Drop { hart, block } => Record::Drop {
            hart: *hart,
            at: start_of(size, *block),
        },
    }
}

fn fill_record(hart: HartNo, at: Place, from: &Origin) -> Record
    ensures { result ≡ Record.Fill hart at from.now }
{
    let from = *from;
    Record::Fill { hart, at, from }
}

fn own_record(hart: HartNo, at: Place, from: &Origin) -> Record
    ensures { result ≡ Record.Own hart at from.now }
{
    let from = *from;
    Record::Own { hart, at, from }
}

fn load_record(hart: HartNo, by_script: bool, at: Place, bytes: &Bytes) -> Record
    ensures { result ≡ rules.load_record by_script hart at.0 bytes.now }
{
    let bytes = *bytes;
    if by_script {
        Record::Ld { hart, at, bytes }
    } else {
        Record::Pl { hart, at, bytes }
    }
}

fn store_record(hart: HartNo, by_script: bool, at: Place, bytes: &Bytes) -> Record
    ensures { result ≡ rules.store_record by_script hart at.0 bytes.now }
{
    let bytes = *bytes;
    if by_script {
        Record::St { hart, at, bytes }
    } else {
        Record::Ps { hart, at, bytes }
    }
}

fn mark_record(hart: HartNo, pred: u8, succ: u8) -> Record
    ensures { result ≡ rules.mark_record hart pred succ }
{
    Record::Mark {
        hart,
        pred: cut(pred),
        succ: cut(succ),
    }
}

fn fence_record(hart: HartNo, pred: u8, succ: u8, issued: &Issued) -> Record
    ensures { result ≡ fence_record hart pred succ issued.now }
{
    match issued {
        Issued::Queued => mark_record(hart, pred, succ),
        _ => Record::Fence { hart, pred, succ },
    }
}

fn entry_record(size: u32, hart: HartNo, e: &Entry) -> Record
    requires { EntryHasPlace size e.now }
    ensures { result ≡ rules.entry_record size hart e.now }
{
    match e {
        Entry::Store { span, bytes, .. } => Record::DrStore {
            hart,
            at: Place(span.at),
            bytes: *bytes,
        },
        Entry::Cbo { block, op } => Record::DrCbo {
            hart,
            op: *op,
            at: start_of(size, *block),
        },
        Entry::Mark { .. } => Record::DrMark(hart),
        Entry::Reg {
            chan,
            off,
            width,
            value,
        } => Record::DrIo {
            hart,
            target: IoTarget::Reg {
                chan: *chan,
                off: *off,
                width: *width,
                value: *value,
            },
        },
        Entry::Mail { buf, to } => Record::DrIo {
            hart,
            target: IoTarget::Mail { buf: *buf, to: *to },
        },
        Entry::Lend {
            label,
            first,
            count,
        } => Record::DrIo {
            hart,
            target: IoTarget::Lend {
                label: *label,
                first: *first,
                count: *count,
            },
        },
    }
}
