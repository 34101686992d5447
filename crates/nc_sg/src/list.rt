//! A scatter list while it is mapped.

ghost use Rattle.std.specs.Prelude.{◌≡◌, ◌+◌, ◌*◌, ◌<◌, ◌≤◌, ◌^◌, ◌++◌, [], ◌∷◌, IfOk, OnOk, OnErr, IfSome, IsSome, All, map, length, slice_get, take};
ghost use Rattle.std.specs.Option.{option_to_list};
ghost use Rattle.nc_num.specs.Sizes.{IsBlockSize};
ghost use Rattle.std.specs.Prelude.{List};
ghost use Rattle.nc_sg.specs.declared.list.Entry.{Entry};
ghost use Rattle.nc_sg.specs.Lists.{device, IsRange, IsEntry, fresh, list_of, direct, next_waiting, give_slot, slot_taken, held, forgotten, part_of, segment_of, joins, run_on, segments, SegmentsKeepTheBytes};

use nc_num::{Dir, NoMemory, Span};
use nc_plan::{Part, SegList, Segment, bounces};
use std::alloc::Global;
use std::marker::Model;

/// The size of a bounce slot in bytes.
const SLOT: u32 = 2048;

/// The bus address of the first byte of RAM.
const BUS: u32 = 0x8000_0000;

/// One entry of a list.
#[derive(Clone, Copy, Debug, PartialEq, Eq)]
pub struct Entry {
    /// The range of RAM.
    pub span: Span,
    /// Whether it bounces.
    pub bounced: bool,
    /// The slot that it holds, if it holds one.
    pub slot: Option<u32>,
}

/// A segment that may still grow, and its last entry.
#[derive(Clone, Copy, Debug, PartialEq, Eq)]
struct Run {
    segment: Segment,
    last: Entry,
}

/// A scatter list. Contracts see its direction and its entries, each with its range, whether it bounces, and the slot
/// that it holds.
#[derive(Drop)]
pub struct SgList {
    dir: Dir,
    entries: Vec<Entry>,
}

impl Model for SgList {
    ghost use Rattle.std.specs.Prelude.{◌≤◌, length, All};
    ghost use Rattle.nc_sg.specs.Lists.{SgView, IsEntry};

    ghost Value = { SgView };

    ghost view = { λ l. record { dir = l.dir; entries = l.entries.items } };

    ghost invariant = { λ l. (length l.entries.items ≤ 16) × All IsEntry l.entries.items };
}

impl SgList {
    /// Makes a list of at most 16 ranges, of which none has a slot yet. Each range is not empty and ends at 1,048,576
    /// at most. `block_size` and `reach`, the end of what the channel reaches, are in bytes.
    ///
    /// # Errors
    ///
    /// `NoMemory` where memory runs out.
    pub fn new(
        alloc: Global,
        spans: &[Span],
        dir: Dir,
        block_size: u32,
        reach: u32,
    ) -> Result<SgList, NoMemory>
        requires size { IsBlockSize block_size }
        requires few { length spans.now ≤ 16 }
        requires ranges { All IsRange spans.now }
        ensures { IfOk result (λ l. l ≡ list_of dir block_size reach spans.now) }
    {
        let entries = fresh_entries(alloc, spans, dir, block_size, reach)?;
        Ok(SgList { dir, entries })
    }

    /// Makes a list of one range, which never bounces. The range is not empty and ends at 1,048,576 at most.
    ///
    /// # Errors
    ///
    /// `NoMemory` where memory runs out.
    pub fn direct(alloc: Global, span: Span, dir: Dir) -> Result<SgList, NoMemory>
        requires range { IsRange span }
        ensures { IfOk result (λ l. l ≡ direct dir span) }
    {
        let mut entries = Vec::with_capacity(alloc, 1)?;
        entries.push(Entry {
            span,
            bounced: false,
            slot: None,
        })?;
        Ok(SgList { dir, entries })
    }

    /// Returns the index of the first entry that bounces and has no slot, or None exactly where each entry that bounces
    /// has one.
    pub fn next_bounced(&self) -> Option<u8>
        ensures { result ≡ next_waiting self.now.entries }
    {
        match first_waiting(&self.entries) {
            Some(i) => Some(i as u8),
            None => None,
        }
    }

    /// Gives a slot, 0 to 63, to the first entry that bounces and has none. The caller shows that there is such an
    /// entry.
    pub fn got(&mut self, slot: u32)
        requires slot { slot < 64 }
        requires waits { IsSome (next_waiting self.old.entries) }
        ensures { self.new ≡ record self.old { entries = give_slot slot self.old.entries } }
    {
        give(&mut self.entries, slot);
    }

    /// Removes the slot of entry `i`, which is in range.
    pub fn put_back(&mut self, i: u8)
        requires entry { i < length self.old.entries }
        ensures { self.new ≡ record self.old { entries = slot_taken i self.old.entries } }
    {
        take_slot(&mut self.entries, i as usize);
    }

    /// Returns the direction in which the list is mapped.
    pub fn dir(&self) -> Dir
        ensures { result ≡ self.now.dir }
    {
        self.dir
    }

    /// Returns the entries, in order; at most 16.
    pub fn entries(&self) -> &[Entry]
        ensures value { result.now ≡ self.now.entries }
        ensures few { length result.now ≤ 16 }
        ensures each { All IsEntry result.now }
    {
        &self.entries
    }

    /// Removes the slots of all entries. `entries` shows beforehand which they are; `unwind` returns them.
    pub fn forget(&mut self)
        ensures { self.new ≡ record self.old { entries = map forgotten self.old.entries } }
    {
        forget(&mut self.entries);
    }

    /// Removes the slots of all entries and returns them, in order of the entries.
    ///
    /// # Errors
    ///
    /// `NoMemory` where memory runs out; then the list is unchanged.
    pub fn unwind(&mut self) -> Result<Vec<u32>, NoMemory>
        ensures slots { IfOk result (λ slots. slots.items ≡ held self.old.entries) }
        ensures forgets { OnOk result (self.new ≡ record self.old { entries = map forgotten self.old.entries }) }
        ensures stays { OnErr result (self.new ≡ self.old) }
    {
        let slots = held_slots(*self.entries.allocator(), &self.entries)?;
        forget(&mut self.entries);
        Ok(slots)
    }

    /// Returns the parts that are lent, in order of the entries. The caller shows that each entry that bounces has its
    /// slot. The slots start at the place `slots_at`, which is at most 1,048,576.
    ///
    /// # Errors
    ///
    /// `NoMemory` where memory runs out.
    pub fn parts(&self, alloc: Global, slots_at: u32) -> Result<Vec<Part>, NoMemory>
        requires slots { slots_at ≤ 1048576 }
        requires all { next_waiting self.now.entries ≡ None }
        ensures { IfOk result (λ parts. parts.items ≡ map (part_of self.now.dir slots_at) self.now.entries) }
    {
        parts_of(alloc, self.dir, slots_at, &self.entries)
    }

    /// Returns the segments that the channel sees, in order: the device ranges of the entries, by their addresses on
    /// the bus. Neighbours are one segment exactly where both are direct and the first ends where the next starts. The
    /// caller shows that each entry that bounces has its slot. The slots start at the place `slots_at`, which is at
    /// most 1,048,576.
    ///
    /// # Errors
    ///
    /// `NoMemory` where memory runs out.
    pub fn segments(&self, alloc: Global, slots_at: u32) -> Result<Vec<Segment>, NoMemory>
        requires slots { slots_at ≤ 1048576 }
        requires all { next_waiting self.now.entries ≡ None }
        ensures { IfOk result (λ ss. ss.items ≡ segments slots_at self.now.entries) }
    {
        let merged = self.seg_list(slots_at);
        Ok(Vec::from_slice(alloc, merged.as_slice())?)
    }

    /// Returns the segments of `segments` under the same conditions, in place. It takes no memory.
    pub fn seg_list(&self, slots_at: u32) -> SegList
        requires slots { slots_at ≤ 1048576 }
        requires all { next_waiting self.now.entries ≡ None }
        ensures { result ≡ segments slots_at self.now.entries }
    {
        merged(slots_at, &self.entries)
    }

    /// Returns segment `number` of `segments`, counted from 0, under the same conditions, or None exactly where there
    /// are not so many.
    pub fn segment(&self, slots_at: u32, number: u32) -> Option<Segment>
        requires slots { slots_at ≤ 1048576 }
        requires all { next_waiting self.now.entries ≡ None }
        ensures { result ≡ slice_get (segments slots_at self.now.entries) number }
    {
        let merged = self.seg_list(slots_at);
        merged.as_slice().get(number as usize).copied()
    }
}

/// Makes the entries of a new list.
fn fresh_entries(
    alloc: Global,
    spans: &[Span],
    dir: Dir,
    block_size: u32,
    reach: u32,
) -> Result<Vec<Entry>, NoMemory>
    requires size { IsBlockSize block_size }
    requires ranges { All IsRange spans.now }
    ensures { IfOk result (λ es. es.items ≡ map (fresh dir block_size reach) spans.now) }
{
    let mut entries = Vec::with_capacity(alloc, spans.len())?;
    for span in spans {
        entries.push(Entry {
            span: *span,
            bounced: bounces(*span, dir, block_size, reach),
            slot: None,
        })?;
    }
    Ok(entries)
}

/// Returns the index of the first entry that bounces and has no slot.
fn first_waiting(entries: &[Entry]) -> Option<usize>
    ensures first { result ≡ next_waiting entries.now }
    ensures within { IfSome result (λ i. i < length entries.now) }
{
    entries.iter().position(|e| e.bounced && e.slot.is_none())
}

/// Gives a slot to the first entry that waits for one.
fn give(entries: &mut Vec<Entry>, slot: u32)
    requires { IsSome (next_waiting entries.old.items) }
    ensures { entries.new.items ≡ give_slot slot entries.old.items }
{
    if let Some(i) = first_waiting(entries) {
        entries[i].slot = Some(slot);
    }
}

/// Removes the slot of entry `i`.
fn take_slot(entries: &mut Vec<Entry>, i: usize)
    requires { i < length entries.old.items }
    ensures { entries.new.items ≡ slot_taken i entries.old.items }
{
    entries[i].slot = None;
}

/// Returns the slots that entries hold, in order.
fn held_slots(alloc: Global, entries: &[Entry]) -> Result<Vec<u32>, NoMemory>
    ensures { IfOk result (λ slots. slots.items ≡ held entries.now) }
{
    let mut slots = Vec::new(alloc);
    for entry in entries {
        if let Some(slot) = entry.slot {
            slots.push(slot)?;
        }
    }
    Ok(slots)
}

/// Removes the slots of all entries.
fn forget(entries: &mut Vec<Entry>)
    ensures { entries.new.items ≡ map forgotten entries.old.items }
{
    for i in 0..entries.len() {
        entries[i].slot = None;
    }
}

/// Returns the range of RAM by which the channel sees an entry: its own range, or the one in its slot. The slots start
/// at the place `slots_at`, which is at most 1,048,576.
pub fn device(slots_at: u32, entry: &Entry) -> Span
    requires slots { slots_at ≤ 1048576 }
    requires entry { IsEntry entry.now }
    ensures value { result ≡ device slots_at entry.now }
    ensures ends { result.at + result.len < 2 ^ 22 }
{
    let span = entry.span;
    if entry.bounced {
        Span {
            at: slots_at + SLOT * entry.slot.unwrap_or(0) + span.at % 8,
            len: span.len,
        }
    } else {
        span
    }
}

/// Makes the part of an entry.
fn part_of(dir: Dir, slots_at: u32, entry: &Entry) -> Part
    requires slots { slots_at ≤ 1048576 }
    requires entry { IsEntry entry.now }
    ensures { result ≡ part_of dir slots_at entry.now }
{
    Part {
        buffer: entry.span,
        device: device(slots_at, entry),
        dir,
    }
}

/// Makes the segment of an entry that begins one.
fn segment_of(slots_at: u32, entry: &Entry) -> Segment
    requires slots { slots_at ≤ 1048576 }
    requires entry { IsEntry entry.now }
    ensures { result ≡ segment_of slots_at entry.now }
{
    let Span { at, len } = device(slots_at, entry);
    Segment { bus: BUS + at, len }
}

/// Returns whether two neighbouring entries are one segment.
fn joins(entry: &Entry, next: &Entry) -> bool
    requires { IsEntry entry.now }
    ensures { result ≡ joins entry.now next.now }
{
    !entry.bounced && !next.bounced && entry.span.at + entry.span.len == next.span.at
}

/// Makes the parts of entries, in order.
fn parts_of(
    alloc: Global,
    dir: Dir,
    slots_at: u32,
    entries: &[Entry],
) -> Result<Vec<Part>, NoMemory>
    requires slots { slots_at ≤ 1048576 }
    requires entries { All IsEntry entries.now }
    ensures { IfOk result (λ parts. parts.items ≡ map (part_of dir slots_at) entries.now) }
{
    let mut parts = Vec::new(alloc);
    for entry in entries {
        parts.push(part_of(dir, slots_at, entry))?;
    }
    Ok(parts)
}

/// Returns the segments of entries.
fn merged(slots_at: u32, entries: &[Entry]) -> SegList
    requires slots { slots_at ≤ 1048576 }
    requires few { length entries.now ≤ 16 }
    requires entries { All IsEntry entries.now }
    ensures { result ≡ segments slots_at entries.now }
{
    let Some((first, rest)) = entries.split_first() else {
        return SegList::of(&[]);
    };
    let mut cells = [Segment { bus: 0, len: 0 }; 16];
    let mut done = 0;
    let mut run = begun(slots_at, first);
    for entry in rest {
        let (ended, next) = go_on(slots_at, run, entry);
        done = add(&mut cells, done, ended);
        run = next;
    }
    done = add(&mut cells, done, Some(run.segment));
    SegList::of(&cells[..done])
}

/// Stores a segment, where there is one, after the first `done` cells. Returns how many cells have segments then.
fn add(cells: &mut [Segment; 16], done: usize, segment: Option<Segment>) -> usize
    requires { done < 16 }
    ensures cells { take result cells.new ≡ take done cells.old ++ option_to_list segment }
    ensures few { result ≤ done + 1 }
{
    match segment {
        Some(segment) => {
            cells[done] = segment;
            done + 1
        }
        None => done,
    }
}

/// Extends a run by an entry: the entry joins the run, or the run has ended and its segment is returned with the run
/// that the entry begins.
fn go_on(slots_at: u32, run: Run, entry: &Entry) -> (Option<Segment>, Run)
    requires slots { slots_at ≤ 1048576 }
    requires room { run.segment.len ≤ 16777216 }
    requires last { IsEntry run.last }
    requires entry { IsEntry entry.now }
    ensures all { (es : List Entry) → option_to_list result.0 ++ run_on slots_at result.1.segment result.1.last es ≡ run_on slots_at run.segment run.last (entry.now ∷ es) }
    ensures len { result.1.segment.len ≤ run.segment.len + 1048576 }
    ensures last { result.1.last ≡ entry.now }
{
    if !joins(&run.last, entry) {
        return (Some(run.segment), begun(slots_at, entry));
    }
    let segment = Segment {
        bus: run.segment.bus,
        len: run.segment.len + entry.span.len,
    };
    let last = *entry;
    (None, Run { segment, last })
}

/// Makes the run that an entry begins.
fn begun(slots_at: u32, entry: &Entry) -> Run
    requires slots { slots_at ≤ 1048576 }
    requires entry { IsEntry entry.now }
    ensures value { result ≡ record { segment = segment_of slots_at entry.now; last = entry.now } }
    ensures len { result.segment.len ≤ 1048576 }
{
    Run {
        segment: segment_of(slots_at, entry),
        last: *entry,
    }
}

/// Proves that the bytes of the segments, one after another, are those of the device ranges of the entries.
pub fn segments_keep_the_bytes()
    ensures { SegmentsKeepTheBytes }
{}
