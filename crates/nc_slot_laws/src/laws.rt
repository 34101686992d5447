//! The laws of slots, over the definitions alone.

ghost use Rattle.nc_slot_laws.specs.Slots.{EachIsGivenOnce};
ghost use Rattle.nc_slot_laws.specs.Looks.{EachIsSearched};

/// Proves that after each prefix of the events each slot is held by one hart at most, for one entry of its lots, and
/// that the slot's word names that hart. The device ranges of two grants share no byte, and no two grants are of one
/// mapping. It holds of every accepted scenario and every list of events that name what exists, with touches or
/// without.
pub fn slots_law()
    ensures { EachIsGivenOnce }
{}

/// Proves that a hart tried every slot before each answer that no slot was found. Since its last step its last looks at
/// slot words, as many as there are slots, were at the words 0, 1, .. in turn, each missed, and the answer is of the
/// event of the last look. In a scenario without slots the hart looked at none, and the answer is of its step. It holds
/// of every accepted scenario and every list of events that name what exists, with touches or without.
pub fn noslot_law()
    ensures { EachIsSearched }
{}
