//! Piece n of a span.

ghost use Rattle.std.specs.Prelude.{◌≡◌, ◌⊎◌, ◌+◌, ◌*◌, ◌≤◌, ◌<◌, ◌^◌, slice_get};
ghost use Rattle.nc_num.specs.Places.{piece_len, pieces};

use nc_num::{Span, first_piece};

/// Returns how many pieces of a span, at least one and at most `most`, may be passed at once because they have one
/// length.
fn alike(left: Span, size: u32, most: u32) -> u32
    requires some { 0 < left.len }
    requires more { 0 < most }
    requires first { size ≡ piece_len left }
    ensures some { 0 < result }
    ensures most { result ≤ most }
    ensures within { result * size ≤ left.len }
    ensures alike { (result ≡ 1) ⊎ (size ≡ 8) }
    ensures all { size ≡ 8 → (result ≡ most) ⊎ (left.len < (result + 1) * 8) }
{
    if size == 8 { most.min(left.len / 8) } else { 1 }
}

/// Returns piece n of a span, counted from 0, or None where the span has no such piece.
///
/// The pieces of 8 bytes in the middle of the span are passed at once, so that a step takes a few turns, whatever n and
/// the length are.
pub(crate) fn nth_piece(range: Span, n: u32) -> Option<Span>
    requires { range.at + range.len < 2 ^ 32 }
    ensures { result ≡ slice_get (pieces range) n }
{
    let mut left = range;
    let mut before = n;
    while left.len > 0 {
        let piece = first_piece(left);
        if before == 0 {
            return Some(piece);
        }
        let passed = alike(left, piece.len, before);
        before -= passed;
        left = Span {
            at: left.at + passed * piece.len,
            len: left.len - passed * piece.len,
        };
    }
    None
}
