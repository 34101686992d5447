//! The segments that a mapped scatter list has on the bus.

ghost use Rattle.std.specs.Prelude.{◌≡◌, ◌≤◌, length};
ghost use Rattle.nc_plan.specs.Segments.{padded};

use std::marker::Model;

/// A run of bus addresses (Linux DMA API: `sg_dma_address` and `sg_dma_len` of a mapped entry).
#[derive(Clone, Copy, Debug, PartialEq, Eq)]
pub struct Segment {
    /// The bus address of the first byte.
    pub bus: u32,
    /// The number of bytes.
    pub len: u32,
}

/// A list of at most 16 segments, kept in place and copied. Contracts see the list of the segments.
#[derive(Clone, Copy, Debug, PartialEq, Eq)]
pub struct SegList {
    cells: [Segment; 16],
    len: usize,
}

impl Model for SegList {
    ghost use Rattle.std.specs.Prelude.{List, take};
    ghost use Rattle.nc_plan.specs.declared.segments.Segment.{Segment};
    ghost use Rattle.nc_plan.specs.Segments.{IsPadded};

    ghost Value = { List Segment };

    ghost use Rattle.nc_plan.specs.SegmentsBack.{fields_of, fields_back};

    ghost view = { λ s. take s.len s.cells };

    ghost invariant = { λ s. IsPadded s.cells s.len };

    ghost inverse = { fields_of };

    ghost inverse_ok = { fields_back };
}

/// Returns the segments, padded with empty ones to 16.
fn cells_of(s: &[Segment]) -> [Segment; 16]
    requires { length s.now ≤ 16 }
    ensures { result ≡ padded s.now }
{
    let mut cells = [Segment { bus: 0, len: 0 }; 16];
    cells[..s.len()].copy_from_slice(s);
    cells
}

impl SegList {
    /// Makes a copy of the segments of a slice, of which there are at most 16.
    pub fn of(s: &[Segment]) -> SegList
        requires { length s.now ≤ 16 }
        ensures { result ≡ s.now }
    {
        let cells = cells_of(s);
        SegList {
            cells,
            len: s.len(),
        }
    }

    /// Returns the segments, in order; at most 16.
    pub fn as_slice(&self) -> &[Segment]
        ensures value { result.now ≡ self.now }
        ensures few { length self.now ≤ 16 }
    {
        &self.cells[..self.len]
    }
}
