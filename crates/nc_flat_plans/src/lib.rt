//! Flat memory through the plans that lend and take back: those of mappings and scatter lists, direct and bounced (map,
//! unmap, their lists, and the syncs), those of coherent areas, and those of both ends of a copy.
//!
//! The crate has no code. A plan that lends copies the ranges that bounce into their slots and writes each block back.
//! It ends with a full fence, with which the lot is its channel's; where fences are light it ends with a marker and a
//! token, and the lot is the channel's once the token drains. A plan that takes back drops each block that the channel
//! may have written, fences, and copies what bounced out of its slots. An area is allocated with each of its blocks
//! zeroed and then flushed, is given as a mapping is, and is taken back and freed with a full fence alone.
//!
//! Both ends of a copy are lent with its claim: the destination waits while the source's blocks are written back. Where
//! fences are light the tokens of both may be queued while the plan goes on, up to its poll. Each end is taken back
//! with the first step of its way back. The contract for the layers above: `plans_go`, that flat memory's bytes stand
//! after each step of such a plan.
#![tactic(auto)]

mod laws;

pub use laws::plans_go;
