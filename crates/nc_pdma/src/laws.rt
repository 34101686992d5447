//! The laws of every channel.

ghost use Rattle.nc_pdma.specs.Laws.{ChannelsStaySound, ClaimByControl, EachReadTakesTheNextBytes, EachWriteGivesTheFirstBytes};

/// Proves that every channel keeps its invariant: it runs only while it is claimed; its FIFO is empty unless it runs,
/// and has at most 64 bytes; while it runs some bytes are left to write, those in the FIFO among them. A new channel is
/// so, and no access to a register, read or write changes that.
#[tactic(auto, using(crate::proofs::Sound::channels_stay_sound))]
pub fn channels_stay_sound()
    ensures { ChannelsStaySound }
{}

/// Proves that, on a channel that nobody has claimed, a write to Control of its own value with bit 0 set is the claim:
/// it sets the claim bit, clears the Next registers, and changes nothing else.
#[tactic(auto, using(crate::proofs::Claim::claim_by_control))]
pub fn claim_by_control()
    ensures { ClaimByControl }
{}

/// Proves that a read that moves bytes takes those at ExecSource, at most 64, in RAM and within one multiple of the
/// read size.
#[tactic(auto, using(crate::proofs::Transactions::each_read))]
pub fn reads_take_the_next_bytes()
    ensures { EachReadTakesTheNextBytes }
{}

/// Proves that a write that moves bytes gives the first bytes of the FIFO to ExecDestination, at most 64, in RAM and
/// within one multiple of the write size; it is the last exactly where no byte is left to write.
#[tactic(auto, using(crate::proofs::Transactions::each_write))]
pub fn writes_give_the_first_bytes()
    ensures { EachWriteGivesTheFirstBytes }
{}
