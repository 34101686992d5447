//! Places of RAM, blocks, spans and their pieces.

ghost use Rattle.std.specs.Prelude.{◌≡◌, ◌+◌, ◌^◌, ◌<◌};
ghost use Rattle.nc_num.specs.Sizes.{IsBlockSize};
ghost use Rattle.nc_num.specs.Places.{block_at, piece, pieces, Tiles};
ghost use Rattle.nc_num.specs.declared.places.Span.{Span};

/// A place of RAM: the offset of a byte from the start of RAM.
#[derive(Clone, Copy, Debug, PartialEq, Eq, PartialOrd, Ord)]
pub struct Place(pub u32);

/// The index of a cache block: its start in bytes, divided by the block size.
#[derive(Clone, Copy, Debug, PartialEq, Eq, PartialOrd, Ord)]
pub struct Block(pub u32);

/// A run of places: the `len` bytes that begin at the place `at`.
#[derive(Clone, Copy, Debug, PartialEq, Eq)]
pub struct Span {
    /// The place of the first byte.
    pub at: u32,
    /// The number of bytes.
    pub len: u32,
}

/// Returns the first piece of a span: its longest prefix of 8, 4, 2 or 1 bytes that is naturally aligned.
///
/// A hart loads and stores a span piece by piece: the first piece, and then the pieces of the rest. This is this
/// project's own rule.
pub fn first_piece(span: Span) -> Span
    requires some { 0 < span.len }
    requires ends { span.at + span.len < 2 ^ 32 }
    ensures { result ≡ piece span }
{
    let Span { at, len } = span;
    let taken = if at % 8 == 0 && 8 <= len {
        8
    } else if at % 4 == 0 && 4 <= len {
        4
    } else if at % 2 == 0 && 2 <= len {
        2
    } else {
        1
    };
    Span { at, len: taken }
}

/// Returns the block that contains a place, for a block size of 32, 64 or 128 bytes (RISC-V CMO 1.0: a cache block is a
/// naturally aligned power-of-two range, of one size throughout the system).
pub fn block_of(at: Place, size: u32) -> Block
    requires { IsBlockSize size }
    ensures { result.0 ≡ block_at at.0 size }
{
    Block(at.0 / size)
}

/// Proves that the pieces of a span cover it in order, each of 8, 4, 2 or 1 bytes, naturally aligned and in one block
/// of each size.
#[tactic(auto, using(crate::proofs::Tiling::tiles))]
pub fn pieces_tile()
    ensures { (span : Span) → Tiles span.at span.len (pieces span) }
{}
