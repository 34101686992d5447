//! A ring of eight cells: the entries follow one another from a start on, and the first cell follows the last.

ghost use Rattle.std.specs.Prelude.{◌≡◌, ◌+◌, ◌-◌, ◌%◌, ◌<◌, ◌≤◌, length, take, remove, slice_index_or};
ghost use Rattle.nc_queue.specs.Ring.{listed, window};

use crate::entry::Entry;

/// The number of cells of a ring.
pub(crate) const ROOM: u8 = 8;

/// The entries of a ring, the oldest first: those up to its last cell, and then those from its first cell on.
#[derive(Clone, Copy)]
pub(crate) struct Entries<'a> {
    pub(crate) older: &'a [Entry],
    pub(crate) newer: &'a [Entry],
}

impl<'a> Entries<'a> {
    /// Returns the number of entries.
    pub(crate) fn len(self) -> usize
        ensures { result ≡ length (listed self.entry) }
    {
        self.older.len() + self.newer.len()
    }

    /// Returns the `n` oldest of them.
    pub(crate) fn first(self, n: usize) -> Entries<'a>
        requires { n ≤ length (listed self) }
        ensures { listed result ≡ take n (listed self.entry) }
    {
        let split = n.min(self.older.len());
        Entries {
            older: &self.older[..split],
            newer: &self.newer[..n - split],
        }
    }

    /// Returns entry `i`, counted from the oldest.
    pub(crate) fn get(self, i: usize) -> &'a Entry
        requires { i < length (listed self) }
        ensures { result.now ≡ slice_index_or (listed self.entry) i result.now }
    {
        if i < self.older.len() {
            &self.older[i]
        } else {
            &self.newer[i - self.older.len()]
        }
    }
}

/// Returns the index of the cell of entry `i`, for entries from a start on.
pub(crate) fn place(start: u8, i: u8) -> usize
    requires start { start < 8 }
    requires entry { i ≤ 8 }
    ensures place { result ≡ (start + i) % 8 }
    ensures within { result < 8 }
{
    ((start + i) % ROOM) as usize
}

/// Returns the `len` entries from a start on.
pub(crate) fn entries_of(cells: &[Entry], start: u8, len: u8) -> Entries<'_>
    requires room { length cells.now ≡ 8 }
    requires start { start < 8 }
    requires few { len ≤ 8 }
    ensures entries { listed result ≡ window start len cells.now }
    ensures few { length (listed result) ≤ 8 }
{
    let start = start as usize;
    let end = start + len as usize;
    Entries {
        older: &cells[start..end.min(8)],
        newer: &cells[..end.saturating_sub(8)],
    }
}

/// Moves the entries after entry `i` up by one, so that the gap comes to the end.
fn close_gap(cells: &mut [Entry], start: u8, i: u8, len: u8)
    requires room { length cells.old ≡ 8 }
    requires start { start < 8 }
    requires few { len ≤ 8 }
    requires there { i < len }
    ensures { window start (len - 1) cells.new ≡ remove (window start len cells.old) i }
{
    for k in i..len - 1 {
        cells[place(start, k)] = cells[place(start, k + 1)];
    }
}

/// Removes entry `i` and returns the cell of the oldest of the others. No other entry moves where `i` is the oldest.
pub(crate) fn take_out(cells: &mut [Entry], start: u8, i: u8, len: u8) -> u8
    requires room { length cells.old ≡ 8 }
    requires start { start < 8 }
    requires few { len ≤ 8 }
    requires there { i < len }
    ensures start { result < 8 }
    ensures entries { window result (len - 1) cells.new ≡ remove (window start len cells.old) i }
{
    if i == 0 {
        return (start + 1) % ROOM;
    }
    close_gap(cells, start, i, len);
    start
}
