//! The laws of the definitions, each a function that does nothing.

ghost use Rattle.nc_model.specs.Laws.{EachNewestWins, LaterWin, EachOneMay, EachIsFault, EachIsAllowed, IsResolved, EachOneGrant, EachStayApart, FlatInOrder, OthersStay, EachSpliced, LatestByNumber, LatestInTwo, EndsAtTouch};

/// Proves that the owner of a place is that of the newest transfer that covers it.
#[tactic(auto, using(crate::proofs::OwnerLaws::newest_wins))]
pub fn newest_transfer_wins()
    ensures { EachNewestWins }
{}

/// Proves that, of two lists of transfers with the newer first, the older decides a place exactly where no transfer of
/// the newer covers it.
#[tactic(auto, using(crate::proofs::OwnerLaws::later_win))]
pub fn later_is_after()
    ensures { LaterWin }
{}

/// Proves that at most one hart may use a byte, and that no hart may use a byte that is the device's.
#[tactic(auto, using(crate::proofs::OwnerLaws::one_may_lem))]
pub fn one_may()
    ensures { EachOneMay }
{}

/// Proves that a span has no fault exactly where each of its bytes passes, and that its fault is else the first byte
/// that fails.
#[tactic(auto, using(crate::proofs::Faults::is_fault))]
pub fn first_fault_is_first()
    ensures { EachIsFault }
{}

/// Proves that each byte of an access that is no touch may be used so: a hart's byte is its own, or that of a mapping
/// of its own that is synced for the CPU and allows it; a channel's byte is served by a grant of its own, whose mapping
/// owns it and whose direction allows it. Proves also that each byte of a span that is no alias has the right memory
/// type.
#[tactic(auto, using(crate::proofs::TouchLaws::is_allowed))]
pub fn no_touch_is_allowed()
    ensures { EachIsAllowed }
{}

/// Proves that a place resolves to no mapping exactly where it lies in no device range of the channel.
#[tactic(auto, using(crate::proofs::OwnerLaws::is_resolved))]
pub fn unresolved_exactly_outside()
    ensures { IsResolved }
{}

/// Proves, for grants whose device ranges are apart, that the grant that serves a place of a channel is the one whose
/// device range has the place, and the one of its mapping.
#[tactic(auto, using(crate::proofs::GrantLaws::one_grant))]
pub fn one_grant_serves()
    ensures { EachOneGrant }
{}

/// Proves that grants whose device ranges are apart stay so when one is added that meets none of them, and when one is
/// removed.
#[tactic(auto, using(crate::proofs::GrantLaws::stay_apart))]
pub fn grants_stay_apart()
    ensures { EachStayApart }
{}

/// Proves that flat memory after two lists of accesses is that after the second, starting from that after the first.
#[tactic(auto, using(crate::proofs::FlatLaws::in_order))]
pub fn append_is_in_order()
    ensures { FlatInOrder }
{}

/// Proves that a byte that no access writes keeps its value of the start.
#[tactic(auto, using(crate::proofs::FlatLaws::others_stay))]
pub fn other_bytes_stay()
    ensures { OthersStay }
{}

/// Proves that bytes named by their own places are written by one splice, and that a read shows them exactly where they
/// are one span of memory.
#[tactic(auto, using(crate::proofs::FlatLaws::spliced))]
pub fn piece_is_spliced()
    ensures { EachSpliced }
{}

/// Proves that each read before the first touch shows flat memory as it is then, exactly where the read that is access
/// number n shows flat memory after the first n accesses.
#[tactic(auto, using(crate::proofs::LatestLaws::by_number))]
pub fn reads_by_number()
    ensures { LatestByNumber }
{}

/// Proves, for a trace in two parts of which the first has no touch, that its reads show flat memory exactly where
/// those of each part do, the second starting from the flat memory that the first leaves.
#[tactic(auto, using(crate::proofs::LatestLaws::in_two))]
pub fn latest_in_two()
    ensures { LatestInTwo }
{}

/// Proves that what follows the first touch of a trace does not decide whether its reads show flat memory.
#[tactic(auto, using(crate::proofs::LatestLaws::ends_at_touch))]
pub fn touch_ends()
    ensures { EndsAtTouch }
{}
