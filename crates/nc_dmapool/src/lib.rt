//! A pool of small coherent pieces, after Linux's `dma_pool`: pieces of one size, cut from pages of the coherent pool.
//!
//! The contract for the crates above: `alloc` gives the lowest free place, and takes a page exactly where no place is
//! free; the pieces in use are apart, aligned, within the boundary and on pages that the pool took, after any list of
//! calls.
#![tactic(auto)]

mod layout;
mod page;
mod pool;
mod spots;

pub use layout::PoolBad;
pub use pool::{AllocNo, DmaPool, InUse, NotPiece, pieces_are_apart};
