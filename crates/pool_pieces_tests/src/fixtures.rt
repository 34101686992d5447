//! Fixtures: a pool of pieces with its pages, a run of the command `pool`, and a scenario of version 1 with
//! the one that it becomes.

ghost use Rattle.std.specs.Prelude.{◌≤◌, IfSome};
ghost use Rattle.nc_dmapool.specs.Pieces.{HasTaken};

use nc_coherent::PagePool;
use nc_dmapool::{AllocNo, DmaPool, InUse, NotPiece};
use nc_num::{Place, Span};
use std::alloc::Global;

/// Pieces of 24 bytes over one page: three are in use at the end.
pub const PIECES: &[u8] = br#"{
  "at": 49152,
  "pages": 1,
  "size": 24,
  "align": 16,
  "boundary": 64,
  "ops": [
    ["alloc", 1], ["alloc", 2], ["alloc", 3], ["free", 2],
    ["alloc", 4], ["alloc", 4], ["free", 9]
  ]
}"#;

/// What is due for `PIECES`.
pub const PIECES_ANSWER: &[u8] = b"alloc 1 00c000
alloc 2 00c020
alloc 3 00c040
free 2
alloc 4 00c020
alloc 4 used
free 9 none
end pieces 3 pages 1
";

/// A scenario of version 1: one hart with an empty script, one buffer, the empty schedule.
pub const EMPTY_SCRIPT: &[u8] = br#"{
  "version": 1,
  "ram": 4096,
  "harts": [{"mode": "S", "menvcfg": 0, "senvcfg": 0, "script": []}],
  "buffers": [{"at": 0, "len": 2, "fill": 7, "step": 1, "owner": 0}],
  "schedule": []
}"#;

/// The scenario of `EMPTY_SCRIPT` in version 2, as it is written: one line, with the keys in order.
pub const EMPTY_SCRIPT_MOVED: &str = concat!(
    r#"{"block":64,"#,
    r#""buffers":[{"at":0,"fill":7,"len":2,"owner":0,"step":1}],"#,
    r#""harts":[{"menvcfg":0,"mode":"S","script":[],"senvcfg":0}],"#,
    r#""ram":4096,"schedule":[],"version":2,"zero":64}"#,
    "\n"
);

/// A pool of pieces and the pages that it takes from.
#[derive(Drop)]
pub struct Both {
    pub pages: PagePool,
    pub pool: DmaPool,
}

/// Makes a pool of pieces of `size` bytes over `pages` pages from place 49,152 on; None where the pool refuses its
/// sizes or memory runs out.
pub fn over(alloc: Global, pages: u32, size: u32, align: u32, boundary: u32) -> Option<Both>
    requires { pages ≤ 64 }
    ensures { IfSome result (λ b. HasTaken b.pages b.pool) }
{
    let Ok(pages) = PagePool::new(alloc, 49152, pages) else {
        return None;
    };
    let Ok(pool) = DmaPool::new(alloc, size, align, boundary) else {
        return None;
    };
    Some(Both { pages, pool })
}

/// Takes a piece and returns its place, or why there is none.
pub fn given(both: &mut Both) -> Result<Span, AllocNo>
    requires { HasTaken both.old.pages both.old.pool }
    ensures { HasTaken both.new.pages both.new.pool }
{
    both.pool.alloc(&mut both.pages)
}

/// Gives the piece at place `at` back, and returns whether the pool took it.
pub fn taken_back(both: &mut Both, at: u32) -> bool
    requires { HasTaken both.old.pages both.old.pool }
    ensures { HasTaken both.new.pages both.new.pool }
{
    both.pool.free(Place(at)) != Err(NotPiece(Place(at)))
}

/// Ends the pool. Returns the lowest place in use where a piece is in use. Where none is, returns 4,096, the length of
/// a free page, or None where no page is free then.
pub fn ended(both: Both) -> Option<Place>
    requires { HasTaken both.pages both.pool }
{
    let Both { mut pages, pool } = both;
    match pool.destroy(&mut pages) {
        Err(InUse { pool: _, at }) => Some(at),
        Ok(()) => pages.find(1).map(|page| Place(page.len)),
    }
}
