//! The invariant of every driver, whatever its script.

ghost use Rattle.nc_scripts.specs.Drivers.{EachStaysDriver, FirstDrivers, LastLoadsFollow};
ghost use Rattle.nc_scripts.specs.NewLots.{NewLotsAreFree};

/// Proves that the invariant `IsDriver` holds of the driver of each hart at the start of an accepted scenario.
pub fn every_driver_begins()
    ensures { FirstDrivers }
{}

/// Proves that the calls `start`, `told`, `done` and `lent` keep the invariant `IsDriver` of a driver and what it knows
/// of its scenario. `start` comes where a start is next, `done` where an act is next, and `lent` names no lot that is
/// still to be lent.
///
/// What the driver does next exists in every machine of its scenario's size. What it changes exists there too, and is
/// at most 32 of each: owners of ranges of RAM, grants of ranges of RAM to a channel, mappings that end, and slots that
/// are given back; the pages that it takes or gives are pages of the pool. A store of the last load's bytes comes after
/// a load of as many bytes.
pub fn every_driver_stays()
    ensures { EachStaysDriver }
{}

/// Proves how many bytes a hart's last load has after each operation: those of the load, and as many as before after
/// any other operation. So a machine that issues what its drivers ask for meets the condition of `every_driver_stays`
/// on loads.
#[tactic(auto, using(crate::proofs::LastLoads::last_loads_follow))]
pub fn last_loads_follow()
    ensures { LastLoadsFollow }
{}

/// Proves that what a start step makes lots of was free for its hart: each byte that is to be lent is the hart's own,
/// no byte is in two of the ranges, and the pages of an area are free.
pub fn new_lots_are_free()
    ensures { NewLotsAreFree }
{}
