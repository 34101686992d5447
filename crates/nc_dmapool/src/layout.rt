//! The layout of a pool's pages: where on a page pieces may start.

ghost use Rattle.std.specs.Prelude.{◌≡◌, ◌+◌, ◌*◌, ◌/◌, ◌%◌, ◌<◌, ◌≤◌, MatchOption, ℕ};
ghost use Rattle.nc_dmapool.specs.Layouts.{is_power, layout_of, offset_of, place_count};

use std::marker::Model;

/// The size of a page, in bytes.
pub const PAGE: u32 = 4096;

/// Why a pool of such pieces is refused.
#[derive(Clone, Copy, Debug, PartialEq, Eq)]
pub enum PoolBad {
    /// The size is 0, or above the 4,096 bytes of a page.
    Size,
    /// The alignment is not a power of two from 4 to 4,096.
    Align,
    /// The boundary is neither 0 nor a power of two up to 4,096, or a piece with its padding does not fit within it.
    Boundary,
}

/// How a pool cuts its pages: into pieces of `size` bytes at multiples of `align`, none of them across a multiple of
/// `range`.
#[derive(Drop)]
pub struct Layout {
    size: u32,
    align: u32,
    range: u32,
    /// The distance from the start of a piece to the start of the next piece of its range, in bytes.
    step: u32,
    /// The number of pieces in a range.
    count: u32,
}

impl Model for Layout {
    ghost use Rattle.nc_dmapool.specs.Layouts.{Layout as Cut};

    ghost Value = { Cut };

    ghost use Rattle.nc_dmapool.specs.Layouts.{IsCut};

    ghost view = { λ l. record { size = l.size; align = l.align; range = l.range } };

    ghost invariant = { λ l. IsCut (record { size = l.size; align = l.align; range = l.range }) l.step l.count };
}

impl Layout {
    /// Returns the layout of pieces of `size` bytes at multiples of `align`, none of which crosses a multiple of
    /// `boundary`. A boundary of 0 stands for that of the page, 4,096.
    ///
    /// # Errors
    ///
    /// The first that is wrong: `Size` where the size is not 1 to 4,096; `Align` where the alignment is not a power of
    /// two from 4 to 4,096; `Boundary` where the boundary is not a power of two up to 4,096, or is less than the size
    /// rounded up to a multiple of `align`.
    pub fn new(size: u32, align: u32, boundary: u32) -> Result<Layout, PoolBad>
        ensures { result ≡ layout_of size align boundary }
    {
        if size == 0 || size > PAGE {
            return Err(PoolBad::Size);
        }
        if align < 4 || !is_power(align) {
            return Err(PoolBad::Align);
        }
        let range = if boundary == 0 { PAGE } else { boundary };
        let step = size.next_multiple_of(align);
        if !is_power(range) || range < step {
            return Err(PoolBad::Boundary);
        }
        Ok(Layout {
            size,
            align,
            range,
            step,
            count: range / step,
        })
    }

    /// Returns the size of a piece, in bytes.
    pub fn size(&self) -> u32
        ensures { result ≡ self.now.size }
    {
        self.size
    }

    /// Returns the number of places on a page, at least 1.
    pub fn places(&self) -> usize
        ensures value { result ≡ place_count self.now }
        ensures some { 0 < result }
    {
        (PAGE / self.range * self.count) as usize
    }

    /// Returns the offset of place `n`, which is in range, from the start of its page: in bytes, below 4,096.
    pub fn offset(&self, n: usize) -> u32
        requires { n < place_count self.now }
        ensures value { result ≡ offset_of self.now n }
        ensures within { result < 4096 }
    {
        let n = n as u32;
        n / self.count * self.range + n % self.count * self.step
    }

    /// Returns the index of the place at an offset in bytes from the start of a page, or None where no place starts
    /// there.
    pub fn number(&self, offset: u32) -> Option<usize>
        ensures { MatchOption result ((n : ℕ) → n < place_count self.now → ¬ (offset_of self.now n ≡ offset)) (λ n. offset_of self.now n ≡ offset) }
    {
        let within = offset % self.range;
        let piece = within / self.step;
        if within % self.step == 0 && piece < self.count {
            Some((offset / self.range * self.count + piece) as usize)
        } else {
            None
        }
    }
}

/// Returns whether `x` is a power of two up to 4,096.
fn is_power(x: u32) -> bool
    ensures { result ≡ is_power x }
{
    matches!(
        x,
        1 | 2 | 4 | 8 | 16 | 32 | 64 | 128 | 256 | 512 | 1024 | 2048 | 4096
    )
}
