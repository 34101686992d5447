//! The laws of a copy's channel, over the definitions alone.

ghost use Rattle.nc_transfers.specs.Laws.{CopiesGoOn, CopiesRead, CopiesSetUp, CopiesStayWithin, CopiesTell, CopiesWrite};

/// Proves that a claim of a free channel, and then the stores of a copy's plan one after another, set the channel's
/// Next registers. The start moves them to Exec, and the channel runs with nothing written yet; a copy of no bytes is
/// done at once.
#[tactic(auto, using(crate::proofs::SettingUp::copies_set_up))]
pub fn copies_set_up()
    ensures { CopiesSetUp }
{}

/// Proves that while a copy's channel runs, a read takes bytes of the source alone, those after the bytes already read,
/// and, for a copy that is not refused, is never an error. Where RAM has flat memory's bytes there, the FIFO has them.
/// A channel that does not run reads nothing.
#[tactic(auto, using(crate::proofs::ReadSteps::copies_read))]
pub fn copies_read()
    ensures { CopiesRead }
{}

/// Proves that while a copy's channel runs, a write gives bytes to the destination alone, those after the bytes that it
/// has, and, for a copy that is not refused, is never an error. The write reports done exactly where they are the last;
/// then the destination has the source's bytes. A channel that does not run writes nothing.
#[tactic(auto, using(crate::proofs::WriteSteps::copies_write))]
pub fn copies_write()
    ensures { CopiesWrite }
{}

/// Proves that while a copy's channel runs, Control has neither done nor error; after the last write it has done alone.
/// A store of 0 then releases the channel.
#[tactic(auto, using(crate::proofs::Telling::copies_tell))]
pub fn copies_tell()
    ensures { CopiesTell }
{}

/// Proves that, at whatever stage a copy of some bytes is, a store of its plan takes it to the next stage; the last
/// store comes once the copy is done. For a copy that is not refused, a read that finds flat memory's bytes in RAM, a
/// write, and a change of flat memory outside its two ends leave it at its stage. From the release on, its destination
/// has its source's bytes.
#[tactic(auto, using(crate::proofs::Stages::copies_go_on))]
pub fn copies_go_on()
    ensures { CopiesGoOn }
{}

/// Proves that until its release a copy's channel is claimed, and that it runs only after the start. It reads the
/// source alone, writes the destination alone, and, for a copy that is not refused, meets no error.
#[tactic(auto, using(crate::proofs::Ends::copies_stay_within))]
pub fn copies_stay_within()
    ensures { CopiesStayWithin }
{}
