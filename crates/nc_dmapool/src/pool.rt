//! The pool: its pages, and the pieces in use on them.

ghost use Rattle.std.specs.Prelude.{◌≡◌, ℕ, ◌+◌, ◌*◌, ◌%◌, ◌<◌, ◌≤◌, ◌++◌, ◌∷◌, [], ◌↔◌, true, false, length, slice_index_or, map, Some, None, Ok, Err, IfOk, IfErr, OnOk, OnErr};
ghost use Rattle.std.specs.FinSet as set;
ghost use Rattle.nc_coherent.specs.Pages.{lowest_span, with_pages};
ghost use Rattle.nc_dmapool.specs.Apart.{PiecesAreApart};
ghost use Rattle.nc_dmapool.specs.Layouts.{layout_of};
ghost use Rattle.nc_dmapool.specs.Pieces.{HasTaken, IsTaken, all_back, given, lowest_used, page_span, pool_of, without_piece};
ghost use Rattle.nc_dmapool.specs.Marks.{AreTaken, fresh_page};

use crate::layout::{Layout, PAGE, PoolBad};
use crate::page::Page;
use crate::spots::{lowest, mark, used_at};
use nc_coherent::PagePool;
use nc_num::{Place, Span};
use std::alloc::Global;
use std::marker::Model;

/// Why `alloc` gives no piece.
#[derive(Clone, Copy, Debug, PartialEq, Eq)]
pub enum AllocNo {
    /// No place is free on the pages taken, and no page is free.
    NoPage,
    /// Memory ran out.
    NoMemory,
}

/// The error of `free`: no piece in use starts at this place.
#[derive(Clone, Copy, Debug, PartialEq, Eq)]
pub struct NotPiece(pub Place);

/// The error of `destroy`: the pool, unchanged, and the lowest place at which a piece in use starts.
#[derive(Drop)]
pub struct InUse {
    pub pool: DmaPool,
    pub at: Place,
}

/// A pool of pieces of one size on pages of the coherent pool, after Linux's `dma_pool`. Contracts see how it cuts its
/// pages, the pages that it took, in the order of taking, and the places at which a piece in use starts.
#[derive(Drop)]
pub struct DmaPool {
    layout: Layout,
    pages: Vec<Page>,
}

impl Model for DmaPool {
    ghost use Rattle.nc_dmapool.specs.Pieces.{Pieces, pieces_code};

    ghost Value = { Pieces };

    ghost coded = { pieces_code };

    ghost use Rattle.nc_dmapool.specs.Marks.{shown, ArePages};

    ghost view = { λ p. shown p.layout p.pages.items };

    ghost invariant = { λ p. ArePages p.layout p.pages.items };
}

impl DmaPool {
    /// Makes a pool of pieces of `size` bytes at multiples of `align`, none of which crosses a multiple of `boundary`.
    /// A boundary of 0 stands for that of the page, 4,096. The pool has no page yet, and takes no memory.
    ///
    /// # Errors
    ///
    /// The first that is wrong: `Size` where the size is not 1 to 4,096; `Align` where the alignment is not a power of
    /// two from 4 to 4,096; `Boundary` where the boundary is not a power of two up to 4,096, or is less than the size
    /// rounded up to a multiple of `align`.
    pub fn new(alloc: Global, size: u32, align: u32, boundary: u32) -> Result<DmaPool, PoolBad>
        ensures { result ≡ pool_of (layout_of size align boundary) }
    {
        let layout = Layout::new(size, align, boundary)?;
        Ok(DmaPool {
            layout,
            pages: Vec::new(alloc),
        })
    }

    /// Returns the number of pages that the pool took.
    pub fn pages_taken(&self) -> usize
        ensures { result ≡ length self.now.pages }
    {
        self.pages.len()
    }

    /// Gives a piece at the lowest free place on the pages taken. Where no place is free, takes the lowest free page of
    /// `pages`, and gives a piece at its first place.
    ///
    /// The caller has each page of this pool taken in `pages`, and it is so afterwards.
    ///
    /// # Errors
    ///
    /// `NoPage` exactly where no place and no page is free; `NoMemory` where memory runs out. Both pools are then
    /// unchanged.
    pub fn alloc(&mut self, pages: &mut PagePool) -> Result<Span, AllocNo>
        requires { HasTaken pages.old self.old }
        ensures given { IfOk result (λ piece. (given self.old pages.old ≡ Some (record { at = piece.at; pool = self.new; pages = pages.new })) × (piece.len ≡ self.old.layout.size)) }
        ensures fresh { IfOk result (λ piece. set.contains self.old.used piece.at ≡ false) }
        ensures no_page { IfErr result (λ e. (e ≡ AllocNo.NoPage) ↔ (given self.old pages.old ≡ None)) }
        ensures stays { OnErr result ((self.new ≡ self.old) × (pages.new ≡ pages.old)) }
        ensures taken { HasTaken pages.new self.new }
    {
        let len = self.layout.size();
        if let Some(spot) = lowest(&self.layout, &self.pages, false) {
            mark(&mut self.pages, spot, true);
            return Ok(Span { at: spot.at, len });
        }
        let at = take_page(&self.layout, &mut self.pages, pages)?;
        Ok(Span { at, len })
    }

    /// Takes back the piece that starts at place `at`. It takes no memory.
    ///
    /// # Errors
    ///
    /// `NotPiece` exactly where no piece in use starts there; then the pool is unchanged.
    pub fn free(&mut self, at: Place) -> Result<(), NotPiece>
        ensures freed { OnOk result ((set.contains self.old.used at.0 ≡ true) × (self.new ≡ without_piece self.old at.0)) }
        ensures not_piece { IfErr result (λ e. (e.0 ≡ at) × (set.contains self.old.used at.0 ≡ false) × (self.new ≡ self.old)) }
    {
        match used_at(&self.layout, &self.pages, at.0) {
            Some(spot) => {
                mark(&mut self.pages, spot, false);
                Ok(())
            }
            None => Err(NotPiece(at)),
        }
    }

    /// Ends the pool, and gives all its pages back to `pages`, which is as for `alloc`. It takes no memory.
    ///
    /// # Errors
    ///
    /// `InUse` exactly where a piece is in use, with the pool and the lowest such place; both pools are then unchanged.
    pub fn destroy(self, pages: &mut PagePool) -> Result<(), InUse>
        requires { HasTaken pages.old self }
        ensures back { OnOk result ((lowest_used self ≡ None) × (pages.new ≡ all_back pages.old self.pages)) }
        ensures in_use { IfErr result (λ e. (lowest_used self ≡ Some e.at.0) × (e.pool ≡ self) × (pages.new ≡ pages.old)) }
    {
        if let Some(spot) = lowest(&self.layout, &self.pages, true) {
            return Err(InUse {
                pool: self,
                at: Place(spot.at),
            });
        }
        give_back(&self.pages, pages);
        Ok(())
    }
}

/// Takes the lowest free page of `pages`, and returns the place of its first piece, which is then in use.
///
/// # Errors
///
/// `NoPage` exactly where no page is free; `NoMemory` where memory runs out. Nothing is changed then.
fn take_page(layout: &Layout, own: &mut Vec<Page>, pages: &mut PagePool) -> Result<u32, AllocNo>
    ensures taken { IfOk result (λ at. (lowest_span pages.old 1 ≡ Some (page_span at)) × (own.new.items ≡ own.old.items ++ fresh_page layout.now at ∷ []) × (pages.new ≡ with_pages pages.old (page_span at) false)) }
    ensures whole { IfOk result (λ at. at % 4096 ≡ 0) }
    ensures ends { IfOk result (λ at. at + 4096 ≤ 1048576) }
    ensures no_page { IfErr result (λ e. (e ≡ AllocNo.NoPage) ↔ (lowest_span pages.old 1 ≡ None)) }
    ensures stays { OnErr result ((own.new.items ≡ own.old.items) × (pages.new ≡ pages.old)) }
{
    let Some(span) = pages.find(1) else {
        return Err(AllocNo::NoPage);
    };
    let Ok(mut page) = Page::new(*own.allocator(), span.at, layout.places()) else {
        return Err(AllocNo::NoMemory);
    };
    page.mark(0);
    if own.push(page).is_err() {
        return Err(AllocNo::NoMemory);
    }
    pages.take(span);
    Ok(span.at)
}

/// Gives the pages of `own` back to `pages`.
fn give_back(own: &[Page], pages: &mut PagePool)
    requires { AreTaken pages.old own.now }
    ensures { pages.new ≡ all_back pages.old (map (λ p. p.at) own.now) }
{
    for page in own {
        pages.give(Span {
            at: page.at(),
            len: PAGE,
        });
    }
}

/// Proves that after any list of calls of `alloc` and `free` on a new pool, the pieces in use share no byte, start at
/// multiples of the alignment, cross no multiple of the boundary, and lie on pages that the pool took. Each `alloc` is
/// called with whole pages in RAM, among which the pool's own are taken.
pub fn pieces_are_apart()
    ensures { PiecesAreApart }
{}
