//! The laws of starts, over the definitions alone.

ghost use Rattle.nc_flat_starts.specs.Books.{BooksCarry};
ghost use Rattle.nc_flatness.specs.Steps.{StartsAreFlat};

/// Proves that a row stays from one book to another where both say the same of all that the row is read with: the
/// mapping, what is still to come of its plan, and the buffer of the place.
#[tactic(auto, using(crate::proofs::turning::BookRows::books_carry))]
pub fn book_rows()
    ensures { BooksCarry }
{}

/// Proves that each start of an operation that lends or takes back, each try of a slot word and each answer that a
/// driver is told begins with a touch, or that its reads show flat memory and flat memory's bytes stand after it.
///
/// The operations map, unmap or sync; allocate, give, take back or free an area; or copy by a channel (Linux DMA API:
/// dma_map_single, dma_map_sg, dma_unmap_single, dma_unmap_sg, dma_sync_single_for_cpu and _for_device,
/// dma_alloc_coherent, dma_free_coherent). The event may happen, in a world of an accepted scenario whose bytes stand
/// before it.
#[tactic(auto, using(crate::proofs::opening::Events::starts_go))]
pub fn starts_go()
    ensures { StartsAreFlat }
{}
