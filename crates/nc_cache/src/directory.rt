//! The directory of the domain: a sorted vector of rows, one for each block that some hart holds, beside the bytes of
//! their lines.

ghost use Rattle.std.specs.Prelude.{◌≡◌, ◌≤◌, ◌<◌, ◌+◌, ◌^◌, true, length, is_some, OnOk, OnErr, IfOk, IfErr, IfSome, IfNone, Some, None, vec_len, vec_capacity};
ghost use Rattle.std.specs.FinMap as map;
ghost use Rattle.nc_cache.specs.Cache.{held_by, with_line};
ghost use Rattle.nc_cache.specs.Facts.{IsHeld};
ghost use Rattle.nc_cache.specs.Directory.{IsRising, IsDirectory, HasBytes, block_at, dirty_holder};
ghost use Rattle.nc_cache.specs.Rows.{mask, harts_in, held_in, row_for, lines_of, IsAt, IsGap, AreRowsOf};

use crate::line::{Held, Line};
use crate::slab::Slab;
use nc_num::{Block, Bytes, HartNo, NoMemory};
use std::alloc::Global;
use std::marker::Model;

/// A row of the directory: who holds a block, and which cell its line has.
#[derive(Clone, Copy, Debug, PartialEq, Eq)]
pub struct Row {
    /// The index of the block.
    pub block: Block,
    /// The harts that hold it: bit h is hart h, 0 to 3.
    pub holders: u8,
    /// The hart that holds it dirty and alone, or None where all copies are clean.
    pub dirty: Option<HartNo>,
    /// The index of the cell of its line, which no other row has.
    pub line: u32,
}

/// Finds the index of the row of a block, or the index at which it belongs.
fn place_of(rows: &[Row], block: Block) -> Result<usize, usize>
    requires { IsRising rows.now }
    ensures found { IfOk result (IsAt rows.now block.0) }
    ensures absent { IfErr result (IsGap rows.now block.0) }
{
    rows.binary_search_by_key(&block.0, |row| row.block.0)
}

/// Returns the harts as a mask, in which bit h is hart h.
fn mask_of(by: &[bool; 4]) -> u8
    ensures { result ≡ mask by.now }
{
    u8::from(by[0]) + 2 * u8::from(by[1]) + 4 * u8::from(by[2]) + 8 * u8::from(by[3])
}

/// Returns the harts whose bits are in a mask.
fn harts_of(mask: u8) -> [bool; 4]
    ensures { result ≡ harts_in mask }
{
    [mask & 1 != 0, mask & 2 != 0, mask & 4 != 0, mask & 8 != 0]
}

/// Returns the hart that holds the block dirty.
fn dirty_of(held: &Held) -> Option<HartNo>
    ensures { result ≡ dirty_holder held.now }
{
    match held {
        Held::Shared(_) => None,
        Held::Dirty(g) => Some(*g),
    }
}

/// Makes the row of a block with these holders and this line.
fn row_of(block: Block, held: &Held, line: u32) -> Row
    requires { IsHeld 4 held.now }
    ensures { result ≡ row_for block.0 held.now line }
{
    Row {
        block,
        holders: mask_of(&held.holders()),
        dirty: dirty_of(held),
        line,
    }
}

/// Returns the holders of the block of a row.
fn held_of(row: &Row) -> Held
    ensures { result ≡ held_in row.now.holders row.now.dirty }
{
    match row.dirty {
        None => Held::Shared(harts_of(row.holders)),
        Some(g) => Held::Dirty(g),
    }
}

/// Replaces the line of the block of a row.
fn change_row(rows: &mut Vec<Row>, slab: &mut Slab, at: usize, line: &Line)
    requires kept { AreRowsOf rows.old.items slab.old }
    requires within { at < length rows.old.items }
    requires held { IsHeld 4 line.now.held }
    ensures kept { AreRowsOf rows.new.items slab.new }
    ensures lines { lines_of rows.new.items slab.new.cells ≡ with_line (lines_of rows.old.items slab.old.cells) (block_at rows.old.items at) (Some line.now) }
    ensures len { vec_len rows.new ≡ vec_len rows.old }
    ensures capacity { vec_capacity rows.new ≡ vec_capacity rows.old }
    ensures room { slab.new.room ≡ slab.old.room }
{
    let row = rows[at];
    rows[at] = row_of(row.block, &line.held, row.line);
    slab.set(row.line, &line.bytes);
}

/// Adds the row of a block, by its index, where it belongs.
fn add_row(rows: &mut Vec<Row>, slab: &mut Slab, at: usize, number: u32, line: &Line)
    requires kept { AreRowsOf rows.old.items slab.old }
    requires gap { IsGap rows.old.items number at }
    requires held { IsHeld 4 line.now.held }
    requires rows { vec_len rows.old < vec_capacity rows.old }
    requires room { 1 ≤ slab.old.room }
    ensures kept { AreRowsOf rows.new.items slab.new }
    ensures lines { lines_of rows.new.items slab.new.cells ≡ with_line (lines_of rows.old.items slab.old.cells) number (Some line.now) }
    ensures len { vec_len rows.new ≡ vec_len rows.old + 1 }
    ensures capacity { vec_capacity rows.old ≤ vec_capacity rows.new }
    ensures room { slab.old.room ≤ slab.new.room + 1 }
{
    let cell = slab.take(&line.bytes);
    let row = row_of(Block(number), &line.held, cell);
    let added = rows.insert(at, row);
    match added {
        Ok(()) => {}
        Err(_) => unreachable!(),
    }
}

/// Removes a row and frees its line.
fn remove_row(rows: &mut Vec<Row>, slab: &mut Slab, at: usize)
    requires kept { AreRowsOf rows.old.items slab.old }
    requires within { at < length rows.old.items }
    ensures kept { AreRowsOf rows.new.items slab.new }
    ensures lines { lines_of rows.new.items slab.new.cells ≡ with_line (lines_of rows.old.items slab.old.cells) (block_at rows.old.items at) None }
    ensures len { vec_len rows.new + 1 ≡ vec_len rows.old }
    ensures capacity { vec_capacity rows.new ≡ vec_capacity rows.old }
    ensures room { slab.old.room ≤ slab.new.room }
{
    let row = rows.remove(at);
    slab.release(row.line);
}

/// The blocks that some hart holds. Contracts see the map of their lines, and the number of further blocks that there
/// is room for.
#[derive(Drop)]
pub(crate) struct Directory {
    rows: Vec<Row>,
    slab: Slab,
}

impl Model for Directory {
    ghost use Rattle.std.specs.Prelude.{◌-◌, min, vec_len, vec_capacity};
    ghost use Rattle.nc_cache.specs.Directory.{DirectoryState, directory_code};
    ghost use Rattle.nc_cache.specs.contracts.line.Line as line;

    ghost Value = { DirectoryState };

    ghost coded = { directory_code line.the_row.coded };

    ghost use Rattle.nc_cache.specs.Rows.{lines_of, AreRowsOf};

    ghost view = { λ d. record { lines = lines_of d.rows.items d.slab.cells; spare = min (vec_capacity d.rows - vec_len d.rows) d.slab.room } };

    ghost invariant = { λ d. AreRowsOf d.rows.items d.slab };
}

impl Directory {
    /// Makes an empty directory.
    pub(crate) fn new(alloc: Global) -> Directory
        ensures { result.lines ≡ map.empty }
    {
        Directory {
            rows: Vec::new(alloc),
            slab: Slab::new(alloc),
        }
    }

    /// Makes room for one more block.
    pub(crate) fn reserve(&mut self) -> Result<(), NoMemory>
        ensures ok { OnOk result (1 ≤ self.new.spare) }
        ensures lines { self.new.lines ≡ self.old.lines }
        ensures kept { self.old.spare ≤ self.new.spare }
        ensures full { OnErr result (self.old.spare ≡ 0) }
        ensures err { OnErr result (self.new.spare ≡ 0) }
    {
        self.slab.reserve()?;
        self.rows.reserve(1)?;
        Ok(())
    }

    /// Returns the rows, ascending by block.
    pub(crate) fn rows(&self) -> &[Row]
        ensures { IsDirectory result.now self.now.lines }
    {
        &self.rows
    }

    /// Returns the line of a block, or None where no hart holds it.
    pub(crate) fn line(&self, block: Block) -> Option<Line>
        ensures { result ≡ map.get self.now.lines block.0 }
    {
        match place_of(&self.rows, block) {
            Ok(at) => {
                let row = self.rows[at];
                Some(Line {
                    bytes: *self.slab.get(row.line),
                    held: held_of(&row),
                })
            }
            Err(_) => None,
        }
    }

    /// Returns whether hart h holds a block.
    pub(crate) fn holds(&self, h: HartNo, block: Block) -> bool
        requires { h.0 < 4 }
        ensures { result ≡ held_by (map.get self.now.lines block.0) h.0 }
    {
        match place_of(&self.rows, block) {
            Ok(at) => held_of(&self.rows[at]).holds(h),
            Err(_) => false,
        }
    }

    /// Returns the bytes of a block that some hart holds.
    pub(crate) fn bytes(&self, block: Block) -> Option<&Bytes>
        ensures none { IfNone result (map.get self.now.lines block.0 ≡ None) }
        ensures some { IfSome result (λ bytes. HasBytes (map.get self.now.lines block.0) bytes.now) }
    {
        match place_of(&self.rows, block) {
            Ok(at) => {
                let row = self.rows[at];
                Some(self.slab.get(row.line))
            }
            Err(_) => None,
        }
    }

    /// Sets the line of a block.
    pub(crate) fn put(&mut self, block: Block, line: &Line)
        requires spare { 1 ≤ self.old.spare }
        requires held { IsHeld 4 line.now.held }
        ensures lines { self.new.lines ≡ with_line self.old.lines block.0 (Some line.now) }
        ensures spare { self.old.spare ≤ self.new.spare + 1 }
    {
        match place_of(&self.rows, block) {
            Ok(at) => change_row(&mut self.rows, &mut self.slab, at, line),
            Err(at) => add_row(&mut self.rows, &mut self.slab, at, block.0, line),
        }
    }

    /// Replaces the line of a block that has one.
    pub(crate) fn change(&mut self, block: Block, line: &Line)
        requires there { is_some (map.get self.old.lines block.0) ≡ true }
        requires held { IsHeld 4 line.now.held }
        ensures lines { self.new.lines ≡ with_line self.old.lines block.0 (Some line.now) }
        ensures spare { self.old.spare ≤ self.new.spare }
    {
        match place_of(&self.rows, block) {
            Ok(at) => change_row(&mut self.rows, &mut self.slab, at, line),
            Err(_) => unreachable!(),
        }
    }

    /// Removes the line of a block, where it has one.
    pub(crate) fn remove(&mut self, block: Block)
        ensures lines { self.new.lines ≡ with_line self.old.lines block.0 None }
        ensures spare { self.old.spare ≤ self.new.spare }
    {
        if let Ok(at) = place_of(&self.rows, block) {
            remove_row(&mut self.rows, &mut self.slab, at);
        }
    }
}
