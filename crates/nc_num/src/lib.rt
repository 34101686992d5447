//! The values of the machine: places, blocks and spans of RAM, the names of harts, channels and mappings, and short
//! runs of bytes that are kept in place.
//!
//! The contract for the crates above: the pieces of a span cover it in order, and each is naturally aligned and lies in
//! one block. `specs/` has what every other definition speaks in: memory as a list of bytes, read by place and written
//! by one splice, and the sizes that a block can have.
#![tactic(auto)]

mod bytes;
mod names;
mod places;

pub use bytes::Bytes;
pub use names::{ChanNo, Dir, HartNo, Label, MapId, MemType, NoMemory};
pub use places::{Block, Place, Span, block_of, first_piece, pieces_tile};
