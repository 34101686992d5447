//! Intervals of RAM without gaps, each with its owner.

ghost use Rattle.std.specs.Prelude.{◌≡◌, ◌≢◌, ◌⊎◌, ◌++◌, ◌+◌, ◌-◌, ◌^◌, ◌<◌, ◌≤◌, ℕ, true, length, take, drop, vec_len, vec_capacity, if◌then◌else◌};
ghost use Rattle.std.specs.List.{HoldsAt};
ghost use Rattle.nc_num.specs.Places.{covers};
ghost use Rattle.nc_model.specs.Owners.{owner_at};
ghost use Rattle.nc_own.specs.Tiles.{places, Tile, Joined, made, run, Has, Found, IsBorder, IsGiven};

use nc_model::Owner;
use nc_num::Span;

/// A run of adjacent places of RAM that have one owner (this project's own).
#[derive(Clone, Copy, Debug, PartialEq, Eq)]
pub struct Interval {
    /// The places.
    pub span: Span,
    /// The owner of the places.
    pub owner: Owner,
}

/// Returns the place after a span.
pub fn end_of(span: Span) -> u32
    requires { span.at + span.len < 2 ^ 32 }
    ensures { result ≡ span.at + span.len }
{
    span.at + span.len
}

/// Returns the index of the interval that contains a place, by binary search.
pub fn index_of(intervals: &[Interval], at: u32) -> usize
    requires tile { Tile 0 intervals.now }
    requires inside { at < places intervals.now }
    ensures inside { result < length intervals.now }
    ensures has { HoldsAt (λ i. covers i.span at ≡ true) intervals.now result }
{
    intervals.partition_point(|i| i.span.at <= at) - 1
}

/// Returns the interval that contains a place, with its index.
fn find(intervals: &[Interval], at: u32) -> (usize, Interval)
    requires tile { Tile 0 intervals.now }
    requires inside { at < places intervals.now }
    ensures { Found intervals.now at result.0 result.1 }
{
    let number = index_of(intervals, at);
    (number, intervals[number])
}

/// Returns the index of the interval that contains a place: the guessed one where it does, else one found by binary
/// search.
fn index_near(intervals: &[Interval], guess: usize, at: u32) -> usize
    requires tile { Tile 0 intervals.now }
    requires inside { at < places intervals.now }
    ensures inside { result < length intervals.now }
    ensures has { HoldsAt (λ i. covers i.span at ≡ true) intervals.now result }
{
    if guess < intervals.len() && has(intervals[guess].span, at) {
        guess
    } else {
        index_of(intervals, at)
    }
}

/// Returns the interval that contains a place, from a guess at its index.
pub fn interval_at(intervals: &[Interval], guess: usize, at: u32) -> Interval
    requires tile { Tile 0 intervals.now }
    requires inside { at < places intervals.now }
    ensures { Has intervals.now at result }
{
    intervals[index_near(intervals, guess, at)]
}

/// Returns whether the place lies in the span.
fn has(span: Span, at: u32) -> bool
    ensures { result ≡ covers span at }
{
    span.at <= at && at - span.at < span.len
}

/// Returns where the interval of an owner ends and that of a neighbour begins: the outer place where both have one
/// owner, else the inner place.
fn border(neighbour: Owner, owner: Owner, outer: u32, inner: u32) -> u32
    ensures { IsBorder neighbour owner outer inner result }
{
    if neighbour == owner { outer } else { inner }
}

/// Inserts the interval from `start` to `end` at the index `at`, or nothing where the range is empty. It takes no
/// memory.
pub fn insert_run(intervals: &mut Vec<Interval>, at: usize, start: u32, end: u32, owner: Owner)
    requires room { vec_len intervals.old < vec_capacity intervals.old }
    requires inside { at ≤ vec_len intervals.old }
    ensures items { intervals.new.items ≡ take at intervals.old.items ++ (run start end owner ++ drop at intervals.old.items) }
    ensures len { vec_len intervals.new ≤ vec_len intervals.old + 1 }
    ensures more { vec_len intervals.old ≤ vec_len intervals.new }
    ensures capacity { vec_capacity intervals.new ≡ vec_capacity intervals.old }
{
    if start < end {
        let span = Span {
            at: start,
            len: end - start,
        };
        let inserted = intervals.insert(at, Interval { span, owner });
        match inserted {
            Ok(()) => {}
            Err(_) => unreachable!(),
        }
    }
}

/// Removes the intervals from index `first` on, up to but without index `end`.
fn remove_from(intervals: &mut Vec<Interval>, first: usize, end: usize)
    requires order { first ≤ end }
    requires inside { end ≤ vec_len intervals.old }
    ensures items { intervals.new.items ≡ take first intervals.old.items ++ drop end intervals.old.items }
    ensures len { vec_len intervals.new + (end - first) ≡ vec_len intervals.old }
    ensures capacity { vec_capacity intervals.new ≡ vec_capacity intervals.old }
{
    for _ in first..end {
        let _ = intervals.remove(first);
    }
}

/// Gives the places of a span an owner. What lies before and after it in a cut interval keeps its owner, and is joined
/// where that is the same one. It takes no memory.
pub fn give(intervals: &mut Vec<Interval>, ram: u32, span: Span, owner: Owner)
    requires tile { Tile 0 intervals.old.items }
    requires joined { Joined intervals.old.items }
    requires whole { places intervals.old.items ≡ ram }
    requires some { 0 < span.len }
    requires inside { span.at + span.len ≤ ram }
    requires room { vec_len intervals.old + 3 ≤ vec_capacity intervals.old }
    ensures given { IsGiven intervals.old.items span owner intervals.new.items }
    ensures len { vec_len intervals.new ≤ vec_len intervals.old + 3 }
    ensures capacity { vec_capacity intervals.new ≡ vec_capacity intervals.old }
{
    let end = end_of(span);
    let (first, before) = find(intervals, span.at.saturating_sub(1));
    let (last, behind) = find(intervals, end.min(ram - 1));
    let start = border(before.owner, owner, before.span.at, span.at);
    let stop = border(behind.owner, owner, end_of(behind.span), end);
    remove_from(intervals, first, last + 1);
    insert_run(intervals, first, stop, end_of(behind.span), behind.owner);
    insert_run(intervals, first, start, stop, owner);
    insert_run(intervals, first, before.span.at, start, before.owner);
}
