//! What plans depend on.

use nc_plan::Effects;

/// What the plans of a hart's operations depend on, beside the lots that the hart has.
#[derive(Clone, Copy, Debug, PartialEq, Eq)]
pub struct Lender {
    /// The operations that the hart's cache operations are performed as (RISC-V CMO 1.0).
    pub effects: Effects,
    /// The size of a block in bytes.
    pub size: u32,
    /// The place of the first bounce slot, at most 1,048,576.
    pub slots_at: u32,
    /// Whether fences are light: a marker and a token in place of the full fence that ends a lending.
    pub light: bool,
}
