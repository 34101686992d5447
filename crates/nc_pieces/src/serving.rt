//! The pool that serves a request, and the lines of its operations.

ghost use Rattle.std.specs.Prelude.{◌≡◌, ◌≤◌, ◌<◌, ◌+◌, ◌*◌, ◌^◌, ◌++◌, All, IfOk, OnOk, Ok, Some, None, length, replicate, string_bytes, slice_index_or};
ghost use Rattle.std.specs.FinSet as set;
ghost use Rattle.nc_dmapool.specs.Apart.{after_free};
ghost use Rattle.nc_dmapool.specs.Layouts.{layout_of};
ghost use Rattle.nc_dmapool.specs.Pieces.{pool_of};
ghost use Rattle.nc_pieces.specs.Requests.{FitsOp};
ghost use Rattle.nc_pieces.specs.Serving.{GivesPool, alloc_after, alloc_line, end_line, free_after, free_line, held_by, lines, op_after, op_line, serving_of};

use crate::digits::Six;
use crate::refused::{PoolFault, PoolRefused};
use crate::request::{PieceOp, Request};
use nc_coherent::PagePool;
use nc_dmapool::{AllocNo, DmaPool};
use nc_num::{NoMemory, Place};
use std::alloc::Global;
use std::marker::Model;

/// The number of labels, which are 0 to 999.
const LABELS: usize = 1000;

/// The pool of a request, the pages that it takes from, and the place of each label's piece.
#[derive(Drop)]
pub struct Serving {
    pool: DmaPool,
    pages: PagePool,
    held: Vec<Option<u32>>,
    /// The number of pieces in use.
    pieces: u32,
}

impl Model for Serving {
    ghost use Rattle.std.specs.Prelude.{◌≡◌};
    ghost use Rattle.std.specs.FinSet as set;
    ghost use Rattle.nc_pieces.specs.Serving.{Serving as Stand, IsServing, serving_code};

    ghost Value = { Stand };

    ghost coded = { serving_code };

    ghost view = { λ s. record { pool = s.pool; pages = s.pages; held = s.held.items } };

    ghost invariant = { λ s. IsServing (record { pool = s.pool; pages = s.pages; held = s.held.items }) × (s.pieces ≡ set.len s.pool.used) };
}

impl Serving {
    /// Makes the pool that a request describes, with all its pages free and no piece in use.
    ///
    /// # Errors
    ///
    /// `Refused` with `Pool` where the size, the alignment or the boundary is wrong; `NoMemory` where memory runs out.
    pub fn new(alloc: Global, request: &Request) -> Result<Serving, PoolFault>
        ensures empty { IfOk result (λ s. set.len s.pool.used ≡ 0) }
        ensures gives { GivesPool (λ s. s) result (serving_of request.now (pool_of (layout_of request.now.size request.now.align request.now.boundary))) }
    {
        let pool = match DmaPool::new(alloc, request.size, request.align, request.boundary) {
            Ok(pool) => pool,
            Err(bad) => return Err(PoolFault::Refused(PoolRefused::Pool(bad))),
        };
        let pages = PagePool::new(alloc, request.at, request.pages)?;
        let held = no_pieces(alloc, LABELS)?;
        Ok(Serving {
            pool,
            pages,
            held,
            pieces: 0,
        })
    }

    /// Gives a label a piece, and writes the line.
    fn alloc(&mut self, label: u32, text: &mut String) -> Result<(), NoMemory>
        requires label { label ≤ 999 }
        requires few { set.len self.old.pool.used < 2 ^ 31 }
        ensures after { OnOk result (self.new ≡ alloc_after self.old label (held_by self.old label)) }
        ensures line { OnOk result (string_bytes text.new ≡ string_bytes text.old ++ alloc_line self.old label (held_by self.old label)) }
        ensures more { set.len self.new.pool.used ≤ set.len self.old.pool.used + 1 }
    {
        if self.held[label as usize].is_some() {
            write!(text, "alloc {label} used\n")?;
            return Ok(());
        }
        match self.pool.alloc(&mut self.pages) {
            Ok(piece) => {
                self.held[label as usize] = Some(piece.at);
                self.pieces += 1;
                write!(text, "alloc {label} {}\n", Six(piece.at))?;
                Ok(())
            }
            Err(AllocNo::NoPage) => {
                write!(text, "alloc {label} nopage\n")?;
                Ok(())
            }
            Err(AllocNo::NoMemory) => Err(NoMemory),
        }
    }

    /// Takes a label's piece back, and writes the line.
    fn free(&mut self, label: u32, text: &mut String) -> Result<(), NoMemory>
        requires label { label ≤ 999 }
        ensures after { OnOk result (self.new ≡ free_after self.old label (held_by self.old label)) }
        ensures line { OnOk result (string_bytes text.new ≡ string_bytes text.old ++ free_line label (held_by self.old label)) }
        ensures more { set.len self.new.pool.used ≤ set.len self.old.pool.used }
    {
        let Some(at) = self.held[label as usize] else {
            write!(text, "free {label} none\n")?;
            return Ok(());
        };
        self.held[label as usize] = None;
        self.pieces = freed(&mut self.pool, self.pieces, at);
        write!(text, "free {label}\n")?;
        Ok(())
    }

    /// Does an operation, and writes its line.
    fn serve(&mut self, op: PieceOp, text: &mut String) -> Result<(), NoMemory>
        requires fits { FitsOp op }
        requires few { set.len self.old.pool.used < 2 ^ 31 }
        ensures after { OnOk result (self.new ≡ op_after self.old op) }
        ensures line { OnOk result (string_bytes text.new ≡ string_bytes text.old ++ op_line self.old op) }
        ensures more { set.len self.new.pool.used ≤ set.len self.old.pool.used + 1 }
    {
        match op {
            PieceOp::Alloc(label) => self.alloc(label, text),
            PieceOp::Free(label) => self.free(label, text),
        }
    }

    /// Writes the last line: how many pieces are in use, and how many pages are taken.
    fn end(&self, text: &mut String) -> Result<(), NoMemory>
        ensures { OnOk result (string_bytes text.new ≡ string_bytes text.old ++ end_line self.now) }
    {
        let pieces = self.pieces;
        let pages = self.pool.pages_taken();
        write!(text, "end pieces {pieces} pages {pages}\n")?;
        Ok(())
    }

    /// Runs the operations one after another, and appends their lines and the last line to `text`. They are at most
    /// 4,096, with labels from 0 to 999, and no piece is in use before them.
    ///
    /// # Errors
    ///
    /// `NoMemory` where memory runs out; then some of the operations may be done, and some of the lines written.
    pub fn serve_all(&mut self, ops: &[PieceOp], text: &mut String) -> Result<(), NoMemory>
        requires fits { All FitsOp ops.now }
        requires few { length ops.now ≤ 4096 }
        requires empty { set.len self.old.pool.used ≡ 0 }
        ensures { OnOk result (string_bytes text.new ≡ string_bytes text.old ++ lines self.old ops.now) }
    {
        for op in ops {
            self.serve(*op, text)?;
        }
        self.end(text)
    }
}

/// Makes a list of `labels` labels, none of which has a piece.
fn no_pieces(alloc: Global, labels: usize) -> Result<Vec<Option<u32>>, NoMemory>
    ensures { IfOk result (λ v. v.items ≡ replicate labels None) }
{
    let held = vec![in alloc; None; labels]?;
    Ok(held)
}

/// Gives back the piece at a place, if one starts there, and returns how many are then in use.
fn freed(pool: &mut DmaPool, pieces: u32, at: u32) -> u32
    requires { pieces ≡ set.len pool.old.used }
    ensures after { pool.new ≡ after_free pool.old at (set.contains pool.old.used at) }
    ensures count { result ≡ set.len pool.new.used }
    ensures fewer { result ≤ pieces }
{
    match pool.free(Place(at)) {
        Ok(()) => pieces - 1,
        Err(_) => pieces,
    }
}
