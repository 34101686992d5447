//! Touches: accesses out of turn.

use crate::{Actor, Owner};
use nc_num::Span;

/// The kind of an access out of turn (this project's own).
#[derive(Clone, Copy, Debug, PartialEq, Eq)]
pub enum TouchKind {
    /// A load of a byte that the hart may not read.
    Load,
    /// A store to a byte that the hart may not write, or a zero over one.
    Store,
    /// A transaction over a byte that the channel may not use in this way.
    Channel,
    /// An access to a register of a channel that is granted to another hart.
    Register,
    /// An access by the wrong memory type.
    Alias,
    /// An invalidate of a script that takes effect as one.
    Discard,
}

/// An access out of turn. It is performed all the same, and reported.
#[derive(Clone, Copy, Debug, PartialEq, Eq)]
pub struct Touch {
    /// The kind of the access.
    pub kind: TouchKind,
    /// The hart or channel that made it.
    pub who: Actor,
    /// The piece, block or transaction. For a register access: as many bytes as the access is wide, from channel * 4096
    /// + offset on.
    pub span: Span,
    /// The owner of its first byte at fault; for a register access the hart to which the channel is granted.
    pub holder: Owner,
}
