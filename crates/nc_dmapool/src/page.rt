//! A page that a pool took.

ghost use Rattle.std.specs.Prelude.{◌≡◌, ℕ, ◌+◌, ◌<◌, ◌≤◌, true, false, length, replicate, slice_index_or, slice_set, IfOk, MatchOption};
ghost use Rattle.nc_dmapool.specs.Marks.{IsFirstFrom, IsFirstMark, HasNoMark};

use nc_num::NoMemory;
use std::alloc::Global;
use std::marker::Model;

/// A page that a pool took, with a mark for each of its places: whether a piece in use starts there.
#[derive(Drop)]
pub struct Page {
    at: u32,
    used: Vec<bool>,
    /// The index of the first place that is not in use, or the number of places where all are in use.
    first: usize,
}

impl Model for Page {
    ghost use Rattle.nc_dmapool.specs.Marks.{Marks, IsFirst};

    ghost Value = { Marks };

    ghost view = { λ p. record { at = p.at; marks = p.used.items } };

    ghost invariant = { λ p. IsFirst p.used.items p.first };
}

impl Page {
    /// Makes the page that starts at place `at` of RAM, with `places` places and no piece in use.
    ///
    /// # Errors
    ///
    /// `NoMemory` where memory runs out.
    pub fn new(alloc: Global, at: u32, places: usize) -> Result<Page, NoMemory>
        ensures { IfOk result (λ p. p ≡ record { at = at; marks = replicate places false }) }
    {
        let used = vec![in alloc; false; places]?;
        Ok(Page { at, used, first: 0 })
    }

    /// Returns the place of RAM where the page starts, in bytes.
    pub fn at(&self) -> u32
        ensures { result ≡ self.now.at }
    {
        self.at
    }

    /// Returns whether a piece in use starts at place `n` of the page; false where `n` is out of range.
    pub fn is_used(&self, n: usize) -> bool
        ensures { result ≡ slice_index_or self.now.marks n false }
    {
        match self.used.get(n) {
            Some(used) => *used,
            None => false,
        }
    }

    /// Returns the index of the first place that is not in use, or None where all are in use.
    pub fn first_free(&self) -> Option<usize>
        ensures { MatchOption result (HasNoMark false self.now.marks) (λ n. IsFirstMark false self.now.marks n) }
    {
        if self.first < self.used.len() {
            Some(self.first)
        } else {
            None
        }
    }

    /// Returns the index of the first place that is in use, or None where none is.
    pub fn first_used(&self) -> Option<usize>
        ensures { MatchOption result (HasNoMark true self.now.marks) (λ n. IsFirstMark true self.now.marks n) }
    {
        self.used.iter().position(|used| *used)
    }

    /// Marks place `n` of the page, which is in range, as in use.
    pub fn mark(&mut self, n: usize)
        requires { n < length self.old.marks }
        ensures { self.new ≡ record self.old { marks = slice_set self.old.marks n true } }
    {
        self.used[n] = true;
        if n == self.first {
            self.first = first_from(&self.used, n + 1);
        }
    }

    /// Marks place `n` of the page, which is in range, as not in use.
    pub fn clear(&mut self, n: usize)
        requires { n < length self.old.marks }
        ensures { self.new ≡ record self.old { marks = slice_set self.old.marks n false } }
    {
        self.used[n] = false;
        self.first = self.first.min(n);
    }
}

/// Returns the index of the first place from `from` on that is not in use, or the number of places where all of them
/// are.
fn first_from(used: &[bool], from: usize) -> usize
    requires { from ≤ length used.now }
    ensures { IsFirstFrom used.now from result }
{
    for n in from..used.len() {
        if !used[n] {
            return n;
        }
    }
    used.len()
}
