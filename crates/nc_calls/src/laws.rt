//! The laws of the machine's calls, over the definitions alone.

ghost use Rattle.nc_calls.specs.MachineLaws.{MachineStaysSound, CallsKeepShape};
ghost use Rattle.nc_calls.specs.CallLaws.{StartIsEmpty, LoadsShowWhatIsSeen, IssuesByPlace, DrainsByPlace, MovesByPlace, ChannelsByPlace, ViewsStay, QueuesKeepOrder};

/// Proves that the machine is sound at the start of an accepted scenario, and that each call on a sound machine leaves
/// it sound, where the harts, blocks, channels and operations that the call names exist.
#[tactic(auto, using(crate::proofs::SoundLaws::machine_stays_sound))]
pub fn machine_stays_sound()
    ensures { MachineStaysSound }
{}

/// Proves that no call on a sound machine changes the size of memory or of a block, the pool, or the counts of harts,
/// channels and boxes. The harts, blocks, channels and operations that the call names exist.
#[tactic(auto, using(crate::proofs::SoundLaws::calls_keep_shape))]
pub fn calls_keep_shape()
    ensures { CallsKeepShape }
{}

/// Proves, of the start of each scenario: every hart sees memory's first bytes, no hart holds a block, every queue and
/// every box is empty, and no channel is granted. Memory has the scenario's size where the scenario is accepted.
#[tactic(auto, using(crate::proofs::StartPlaces::start_is_empty))]
pub fn start_is_empty()
    ensures { StartIsEmpty }
{}

/// Proves that a load shows, at each place of its span, the byte that its hart sees there with the load's memory type.
/// The memory types agree at a place where the copies have memory's byte, as where no hart holds the block.
#[tactic(auto, using(crate::proofs::StartPlaces::loads_show))]
pub fn loads_show_what_is_seen()
    ensures { LoadsShowWhatIsSeen }
{}

/// Proves what an issue does at each place of a sound machine: a load moves copies and changes no byte that a hart
/// sees; an operation with an entry adds the entry to its hart's queue, and changes no byte of memory or of a copy. A
/// fence without a marker and a load of a register leave the machine unchanged.
#[tactic(auto, using(crate::proofs::CallProofs::issues_by_place))]
pub fn issues_by_place()
    ensures { IssuesByPlace }
{}

/// Proves what a drain does at each place of a sound machine, to the queues, and to the channels and boxes. Where no
/// entry may leave, the machine is unchanged.
#[tactic(auto, using(crate::proofs::CallProofs::drains_by_place))]
pub fn drains_by_place()
    ensures { DrainsByPlace }
{}

/// Proves that a fill and an eviction of a block in range move copies alone in a sound machine: they change no byte
/// that a hart sees at a place of which no copy is stale. A fill of a block of the coherent pool does nothing.
#[tactic(auto, using(crate::proofs::CallProofs::moves_by_place))]
pub fn moves_by_place()
    ensures { MovesByPlace }
{}

/// Proves, of a sound machine, that a channel's write changes memory exactly at the places of the span that it moves,
/// and that a channel's read, a claim and a take change no byte. It says as well what each makes of the channels, the
/// grants and the boxes. A claim of a channel that is granted, and a take that may not happen, leave the machine
/// unchanged.
#[tactic(auto, using(crate::proofs::CallProofs::channels_by_place))]
pub fn channels_by_place()
    ensures { ChannelsByPlace }
{}

/// Proves which calls on a sound machine leave the byte that each hart sees at a place.
///
/// A load and a fill leave it at every place. An eviction leaves it at a place of which no copy is stale. A drain
/// leaves it, at a place of which no copy is stale, for the draining hart, and for another hart where the draining
/// hart's queue gives no byte of the place; the condition is that no entry of that queue may leave a stale copy of the
/// place, or that no hart holds its block. A channel's write changes exactly its own places.
#[tactic(auto, using(crate::proofs::ViewPlaces::views_stay))]
pub fn views_stay()
    ensures { ViewsStay }
{}

/// Proves that each hart's queue keeps its order as entries drain and come: entries of class O drain in order, and a
/// marker of W before O stays between the entries of class W before it and the entries that it holds back.
#[tactic(auto, using(crate::proofs::ViewPlaces::queues_keep_order))]
pub fn queues_keep_order()
    ensures { QueuesKeepOrder }
{}
