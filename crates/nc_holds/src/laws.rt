//! The laws of who holds what, in every world of every run.

ghost use Rattle.nc_holds.specs.Holds.{StartHolds, EventsKeepHolding, MovesMayBeMade, TokensAreLent};

/// Proves that owners, grants, slot words, pages, messages and tokens agree with the drivers at the start of an
/// accepted scenario (`Holds`).
pub fn worlds_begin()
    ensures { StartHolds }
{}

/// Proves that owners, grants, slot words, pages, messages and tokens agree with the drivers after each event if they
/// did before it (`Holds`), one that is a touch and one that may not happen included. The event names a hart, a block
/// or a channel that exists, and the machine is sound (nc_calls' `machine_stays_sound`).
pub fn events_keep_holding()
    ensures { EventsKeepHolding }
{}

/// Proves that what an event moves may be moved by the hart whose driver makes the event, or whose queue it drains. The
/// event may happen and names what exists, the machine is sound, and `Holds` holds of the world.
///
/// The owners change of ranges of RAM that are not empty. Each new grant may be added after those before it: its device
/// range meets no other's, and its mapping has none. Each slot that is given back is the hart's. Pages that are taken
/// are free, and pages that are given are taken. There are at most 32 owner changes, new grants, ended mappings and
/// slots each.
pub fn moves_may_be_made()
    ensures { MovesMayBeMade }
{}

/// Proves that the token of a light fence that leaves its hart's queue names lots that are lent, so that the driver can
/// give them to their channel. `Holds` holds of the world.
pub fn tokens_are_lent()
    ensures { TokensAreLent }
{}
