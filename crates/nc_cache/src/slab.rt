//! The bytes of the lines, in cells of one vector.

ghost use Rattle.std.specs.Prelude.{◌≡◌, ◌≤◌, ◌<◌, ◌+◌, ◌^◌, ◌⊎◌, ℕ, [], ◌∷◌, ◌++◌, length, OnOk, OnErr, slice_index_or, slice_set, vec_len, vec_capacity};
ghost use Rattle.std.specs.List.{All};
ghost use Rattle.nc_cache.specs.Slab.{Reused, Grown};

use nc_num::{Bytes, NoMemory};
use std::alloc::Global;
use std::marker::Model;

/// The cells of lines. A line keeps its cell, and a freed cell is taken again before a new one is added. Contracts see
/// the bytes of each cell, the free cells, and the number of further lines that there is room for.
#[derive(Drop)]
pub(crate) struct Slab {
    cells: Vec<Bytes>,
    free: Vec<u32>,
}

impl Model for Slab {
    ghost use Rattle.std.specs.Prelude.{◌+◌, ◌-◌, ◌≤◌, min, vec_len, vec_capacity};
    ghost use Rattle.nc_cache.specs.Slab.{SlabState};

    ghost Value = { SlabState };

    ghost view = { λ s. record { cells = s.cells.items; free = s.free.items; room = vec_len s.free + (min (vec_capacity s.cells) (vec_capacity s.free) - vec_len s.cells) } };

    // Each cell can be freed without an allocation.
    ghost invariant = { λ s. vec_len s.cells ≤ vec_capacity s.free };
}

impl Slab {
    /// Makes a slab without cells.
    pub(crate) fn new(alloc: Global) -> Slab
        ensures cells { result.cells ≡ [] }
        ensures free { result.free ≡ [] }
    {
        Slab {
            cells: Vec::new(alloc),
            free: Vec::new(alloc),
        }
    }

    /// Makes room for one more line.
    pub(crate) fn reserve(&mut self) -> Result<(), NoMemory>
        ensures ok { OnOk result (1 ≤ self.new.room) }
        ensures cells { self.new.cells ≡ self.old.cells }
        ensures free { self.new.free ≡ self.old.free }
        ensures kept { self.old.room ≤ self.new.room }
        ensures full { OnErr result (self.old.room ≡ 0) }
        ensures err { OnErr result (self.new.room ≡ 0) }
    {
        if self.free.is_empty() {
            self.free.reserve(self.cells.len() + 1)?;
            self.cells.reserve(1)?;
        }
        Ok(())
    }

    /// Returns the bytes of a cell.
    pub(crate) fn get(&self, cell: u32) -> &Bytes
        requires { cell < length self.now.cells }
        ensures { result.now ≡ slice_index_or self.now.cells cell [] }
    {
        &self.cells[cell as usize]
    }

    /// Replaces the bytes of a cell.
    pub(crate) fn set(&mut self, cell: u32, bytes: &Bytes)
        requires { cell < length self.old.cells }
        ensures cells { self.new.cells ≡ slice_set self.old.cells cell bytes.now }
        ensures free { self.new.free ≡ self.old.free }
        ensures room { self.new.room ≡ self.old.room }
    {
        self.cells[cell as usize] = *bytes;
    }

    /// Takes a cell for these bytes and returns its index: the cell that was freed last, else a new one.
    pub(crate) fn take(&mut self, bytes: &Bytes) -> u32
        requires room { 1 ≤ self.old.room }
        requires few { self.old.free ≡ [] → length self.old.cells < 2 ^ 32 }
        requires within { All (λ cell. cell < length self.old.cells) self.old.free }
        ensures taken { Reused self.old self.new result bytes.now ⊎ Grown self.old self.new result bytes.now }
        ensures room { self.old.room ≤ self.new.room + 1 }
    {
        let freed = self.free.pop();
        match freed {
            Some(cell) => {
                self.cells[cell as usize] = *bytes;
                cell
            }
            None => {
                let cell = self.cells.len() as u32;
                let pushed = self.cells.push(*bytes);
                match pushed {
                    Ok(()) => {}
                    Err(_) => unreachable!(),
                }
                cell
            }
        }
    }

    /// Frees a cell.
    pub(crate) fn release(&mut self, cell: u32)
        requires { length self.old.free < length self.old.cells }
        ensures cells { self.new.cells ≡ self.old.cells }
        ensures free { self.new.free ≡ self.old.free ++ cell ∷ [] }
        ensures room { self.old.room ≤ self.new.room }
    {
        let pushed = self.free.push(cell);
        match pushed {
            Ok(()) => {}
            Err(_) => unreachable!(),
        }
    }
}
