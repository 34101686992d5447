//! The pages of the coherent pool.

ghost use Rattle.std.specs.Prelude.{◌≡◌, ◌+◌, ◌*◌, ◌%◌, ◌<◌, ◌≤◌, IfOk, IfSome, length, replicate, true, false};
ghost use Rattle.std.specs.List.{list_all};
ghost use Rattle.nc_coherent.specs.Pages.{PageMap, IsPages, is_run, lowest_run, lowest_span, pages_of, first_page, page_count, marked, with_pages, LowestRunIsLowest};

use nc_num::{NoMemory, Span};
use std::alloc::Global;
use std::marker::Model;

/// The size of a page in bytes.
const PAGE: u32 = 4096;

/// The pages of the coherent pool, from which `dma_alloc_coherent` of the Linux DMA API takes areas here. Contracts see
/// where the pool starts, in bytes of RAM, and for each page whether it is free.
#[derive(Drop)]
pub struct PagePool {
    at: u32,
    free: Vec<bool>,
}

impl Model for PagePool {
    ghost use Rattle.std.specs.Prelude.{◌≡◌, ◌≤◌, ◌+◌, ◌*◌, ◌%◌, length};
    ghost use Rattle.nc_coherent.specs.Pages.{PageMap};

    ghost Value = { PageMap };

    ghost view = { λ p. record { at = p.at; free = p.free.items } };

    ghost invariant = { λ p. (p.at % 4096 ≡ 0) × (p.at + 4096 * length p.free.items ≤ 1048576) };
}

impl PagePool {
    /// Makes a pool of `pages` pages from the place `at` on, all free. `at` is a multiple of 4,096, and the pool ends
    /// at 1,048,576 at most.
    ///
    /// # Errors
    ///
    /// `NoMemory` where memory runs out.
    pub fn new(alloc: Global, at: u32, pages: u32) -> Result<PagePool, NoMemory>
        requires aligned { at % 4096 ≡ 0 }
        requires ends { at + 4096 * pages ≤ 1048576 }
        ensures { IfOk result (λ p. p ≡ record { at = at; free = replicate pages true }) }
    {
        let free = vec![in alloc; true; pages as usize]?;
        Ok(PagePool { at, free })
    }

    /// Returns the places of the pool: whole pages, the first at a multiple of 4,096, that end at 1,048,576 at most.
    pub fn span(&self) -> Span
        ensures value { result ≡ record { at = self.now.at; len = 4096 * length self.now.free } }
        ensures whole { result.at % 4096 ≡ 0 }
        ensures ends { result.at + result.len ≤ 1048576 }
    {
        Span {
            at: self.at,
            len: PAGE * self.free.len() as u32,
        }
    }

    /// Returns the span of the lowest run of `n` free pages, or None exactly where no such run exists. `n` is at least
    /// 1. First fit is this project's own.
    pub fn find(&self, n: u32) -> Option<Span>
        requires { 0 < n }
        ensures lowest { result ≡ lowest_span self.now n }
        ensures some { IfSome result (λ span. 0 < span.len) }
        ensures whole { IfSome result (λ span. span.at % 4096 ≡ 0) }
        ensures ends { IfSome result (λ span. span.at + span.len ≤ 1048576) }
    {
        let first = first_run(&self.free, n as usize)?;
        Some(Span {
            at: self.at + PAGE * first as u32,
            len: PAGE * n,
        })
    }

    /// Marks the pages of a span as taken. The span is made of whole pages of the pool, all of which are free.
    pub fn take(&mut self, span: Span)
        requires pages { IsPages self.old span }
        requires free { pages_of self.old span ≡ replicate (page_count span) true }
        ensures { self.new ≡ with_pages self.old span false }
    {
        let first = (span.at - self.at) / PAGE;
        mark(
            &mut self.free,
            first as usize,
            (span.len / PAGE) as usize,
            false,
        );
    }

    /// Marks the pages of a span as free. The span is made of whole pages of the pool, all of which are taken.
    pub fn give(&mut self, span: Span)
        requires pages { IsPages self.old span }
        requires taken { pages_of self.old span ≡ replicate (page_count span) false }
        ensures { self.new ≡ with_pages self.old span true }
    {
        let first = (span.at - self.at) / PAGE;
        mark(
            &mut self.free,
            first as usize,
            (span.len / PAGE) as usize,
            true,
        );
    }
}

/// Returns the first page at which `n` free pages start, or None.
fn first_run(free: &[bool], n: usize) -> Option<usize>
    requires short { length free.now ≤ 256 }
    requires small { n < 4294967296 }
    ensures first { result ≡ lowest_run free.now n }
    ensures within { IfSome result (λ p. p + n ≤ length free.now) }
{
    for first in 0..free.len() {
        if starts_run(free, first, n) {
            return Some(first);
        }
    }
    None
}

/// Returns whether `n` free pages start at a page.
fn starts_run(free: &[bool], first: usize, n: usize) -> bool
    requires short { length free.now ≤ 256 }
    requires there { first ≤ length free.now }
    requires small { n < 4294967296 }
    ensures { result ≡ is_run free.now n first }
{
    first + n <= free.len() && all_free(&free[first..first + n])
}

/// Returns whether each of these pages is free.
fn all_free(pages: &[bool]) -> bool
    ensures { result ≡ list_all (λ b. b) pages.now }
{
    pages.iter().all(|free| *free)
}

/// Marks `n` pages from the page `first` on.
#[tactic(auto, unfolding(crate::specs::Pages::marked))]
fn mark(free: &mut [bool], first: usize, n: usize, to: bool)
    requires { first + n ≤ length free.old }
    ensures { free.new ≡ marked free.old first n to }
{
    free[first..first + n].fill(to);
}

/// Proves that the run that `find` returns is free and that no lower run is, and that no run of that length is free
/// where it returns None.
pub fn lowest_run_is_lowest()
    ensures { LowestRunIsLowest }
{}
