//! The places on all pages that a pool took.

ghost use Rattle.std.specs.Prelude.{◌≡◌, ℕ, ◌+◌, ◌<◌, ◌≤◌, ◌⊎◌, true, length, List, slice_index_or, MatchOption};
ghost use Rattle.nc_dmapool.specs.Layouts.{IsLayout, offset_of, place_count};
ghost use Rattle.nc_dmapool.specs.Marks.{IsFirstMark, HasNoMark, IsPage, ArePages, IsSpot, Finds, FindsUsed, Lowers, is_on, page_at, with_mark};

use crate::layout::{Layout, PAGE};
use crate::page::Page;

/// A place on a page of the pool: `page` is the index of the page, in the order of taking, and `number` the index of
/// the place on that page.
#[derive(Clone, Copy, Debug, PartialEq, Eq)]
pub struct Spot {
    /// The place in RAM, in bytes.
    pub at: u32,
    pub page: usize,
    pub number: usize,
}

/// Returns the lowest place that is in use where `used` is true, or that is free where it is false; None where there is
/// no such place.
pub fn lowest(layout: &Layout, pages: &[Page], used: bool) -> Option<Spot>
    requires { ArePages layout.now pages.now }
    ensures { Finds layout.now used pages.now (length pages.now) result }
{
    let mut best = None;
    for (i, page) in pages.iter().enumerate() {
        best = lower(layout, best, i, page, used);
    }
    best
}

/// Returns the lower of `best` and the first place of page `i` that is in use or free, as `used` asks.
fn lower(layout: &Layout, best: Option<Spot>, i: usize, page: &Page, used: bool) -> Option<Spot>
    requires layout { IsLayout layout.now }
    requires page { IsPage layout.now page.now }
    ensures { Lowers layout.now used best i page.now result }
{
    let Some(number) = first(page, used) else {
        return best;
    };
    let at = page.at() + layout.offset(number);
    match best {
        Some(spot) if spot.at < at => Some(spot),
        _ => Some(Spot {
            at,
            page: i,
            number,
        }),
    }
}

/// Returns the index of the first place of a page that is in use or free, as `used` asks.
fn first(page: &Page, used: bool) -> Option<usize>
    ensures { MatchOption result (HasNoMark used page.now.marks) (λ n. IsFirstMark used page.now.marks n) }
{
    if used {
        page.first_used()
    } else {
        page.first_free()
    }
}

/// Returns the spot at which a piece in use starts at place `at` of RAM, or None where no piece does.
pub fn used_at(layout: &Layout, pages: &[Page], at: u32) -> Option<Spot>
    requires { ArePages layout.now pages.now }
    ensures { FindsUsed layout.now pages.now at result }
{
    let i = page_of(pages, at)?;
    let page = &pages[i];
    let number = layout.number(at - page.at())?;
    if page.is_used(number) {
        Some(Spot {
            at,
            page: i,
            number,
        })
    } else {
        None
    }
}

/// Returns the index of a page that place `at` of RAM is on, or None where it is on no page.
fn page_of(pages: &[Page], at: u32) -> Option<usize>
    ensures { MatchOption result ((i : ℕ) → i < length pages.now → ¬ (is_on (page_at pages.now i) at ≡ true)) (λ i. (i < length pages.now) × (is_on (page_at pages.now i) at ≡ true)) }
{
    for (i, page) in pages.iter().enumerate() {
        if page.at() <= at && at - page.at() < PAGE {
            return Some(i);
        }
    }
    None
}

/// Marks the place at `spot`, which exists, as in use where `used` is true, and as free where it is false.
pub fn mark(pages: &mut Vec<Page>, spot: Spot, used: bool)
    requires page { spot.page < length pages.old.items }
    requires number { spot.number < length (page_at pages.old.items spot.page).marks }
    ensures { pages.new.items ≡ with_mark pages.old.items spot.page spot.number used }
{
    let page = &mut pages[spot.page];
    if used {
        page.mark(spot.number);
    } else {
        page.clear(spot.number);
    }
}
