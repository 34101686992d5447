//! The cache domain: coherent caches of up to four harts over one memory, exact to the transfer.
//!
//! For each block that some hart holds, the domain has its bytes and its holders: some harts with clean copies, or one
//! hart with a dirty copy. Memory has its own bytes beside it. This is an MSI protocol of this project's own. A cache
//! has no capacity: a block may come or go at any moment, by `fill` and `evict`. The operations of RISC-V CMO 1.0 are
//! `clean`, `flush`, `inval` and `zero`.
//!
//! The contract for the crates above: each call makes the definition's change to the map of blocks and to memory, and
//! returns the definition's transfers, in order (`specs/Cache.antt`, `specs/Bus.antt`). The map is kept as one
//! directory, a vector of rows sorted by block, beside a slab of lines; `rows` returns it (`specs/Directory.antt`). The
//! laws say what each call keeps at one place of memory; the proof of flat memory builds on them (`specs/Laws.antt`).
#![tactic(auto)]

mod bus;
mod directory;
mod domain;
mod laws;
mod line;
mod slab;
mod transfers;

pub use bus::BusList;
pub use directory::Row;
pub use domain::Domain;
pub use laws::{
    bytes_are_seen, calls_keep_places, calls_keep_whole, calls_write_places, inval_drops,
    lines_are_held,
};
pub use line::{BusRec, Held, Line, Origin};
