//! The laws of the plans of mappings, scatter lists, coherent areas and copies, over the definitions alone.

ghost use Rattle.nc_flatness.specs.Steps.{PlansAreFlat};

/// Proves that each step of a plan that lends or takes back begins with a touch, or that its reads show flat memory and
/// flat memory's bytes, with its writes made, stand after it.
///
/// Such a step is a piece that is copied into its slot or out of it, a cache operation, a full fence, or the marker or
/// the token of a light one; the ends of a copy have such steps too. The zeros of an area that is allocated are writes.
/// The steps by which a copy claims its channel, sets it up, polls it and releases it are not among them (Linux DMA
/// API: dma_map_single, dma_unmap_single, dma_map_sg, dma_unmap_sg, dma_sync_single_for_cpu and _for_device,
/// dma_alloc_coherent, dma_free_coherent). The step may happen, in a world of an accepted scenario whose bytes stand
/// before it.
pub fn plans_go()
    ensures { PlansAreFlat }
{}
