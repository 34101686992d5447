//! The laws of what a refused operation leaves unchanged.

ghost use Rattle.nc_refusals.specs.Laws.{RefusalsLeaveAll, EarlierEventsLeaveAll, WordsAreGivenBack, FencesEmptyQueues, AnswersLeaveNoEnds, CopiesGiveBack, StartsAreOfPlans};

/// Proves that the event that refuses an operation leaves the machine (each byte, cache, queue, box and channel), the
/// owners, the grants and the pages unchanged. It gives back exactly the slots of the hart's lots that are not lent,
/// and these lots are gone. It holds of every operation, in every world.
pub fn refusals_leave_all()
    ensures { RefusalsLeaveAll }
{}

/// Proves, of each event before a refusal that the hart makes with the refused operation in hand, that it leaves the
/// machine, the owners, the grants and the pages unchanged and takes at most one free slot word; or that it makes one
/// step of an operation by number, and changes the machine by that step's act alone. It holds in every run of an
/// accepted scenario whose events name what exists. The law does not speak of other events in between.
pub fn earlier_events_leave_all()
    ensures { EarlierEventsLeaveAll }
{}

/// Proves that after a refusal the hart holds exactly the slot words that it held as the operation began. It holds in
/// every run of an accepted scenario whose events name what exists.
pub fn words_are_given_back()
    ensures { WordsAreGivenBack }
{}

/// Proves that after a fence of I, O, R and W on both sides the queue of its hart has no entry of class W or O (RISC-V,
/// FENCE). It holds in every world in which the hart may issue it.
pub fn fences_empty_queues()
    ensures { FencesEmptyQueues }
{}

/// Proves that a hart has no end of a copy left after an event that answers its operation, be the answer that a copy
/// failed. It holds in every run of an accepted scenario whose events name what exists.
pub fn answers_leave_no_ends()
    ensures { AnswersLeaveNoEnds }
{}

/// Proves that an end of a copy that is lent, or was, leaves the lots of its hart only by an event after which each of
/// its bytes is the hart's own, its grant is gone and its slot is free. So a copy that failed has given back both its
/// ranges. The law does not speak of the bytes that its transfer wrote. It holds in every run of an accepted scenario
/// whose events name what exists.
pub fn copies_give_back()
    ensures { CopiesGiveBack }
{}

/// Proves that an operation has a start step, which may refuse it before anything is lent, exactly where it goes by a
/// plan, whatever lots its hart has. All other operations are steps by number.
#[tactic(auto, using(crate::proofs::StartLaws::plans_start))]
pub fn starts_are_of_plans()
    ensures { StartsAreOfPlans }
{}
