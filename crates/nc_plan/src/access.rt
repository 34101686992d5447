//! The target of an access of a script.

use nc_num::MemType;

/// The start of an access.
#[derive(Clone, Copy, Debug, PartialEq, Eq)]
pub enum At {
    /// A place of RAM, through pages of one type.
    Ram {
        /// The place of the first byte.
        at: u32,
        /// The type of the pages.
        kind: MemType,
    },
    /// A virtual address, translated piece by piece.
    Virtual {
        /// The address of the first byte.
        va: u32,
    },
}
