//! The state of a hart's script, and its changes.

ghost use Rattle.std.specs.Prelude.{ℕ, ◌≡◌, ◌<◌, [], false, length, drop, IfOk, IfSome, OnSome, MatchOption, None, Some};
ghost use Rattle.nc_scen.specs.Accepted.{IsAccepted};
ghost use Rattle.nc_rules.specs.declared.steps.Phase.TheVariants.{Steps, Work};
ghost use Rattle.nc_rules.specs.Driver as due;
ghost use Rattle.nc_rules.specs.Start.{first_driver};
ghost use Rattle.nc_checks.specs.Safe.{IsSafe, IsShort};
ghost use Rattle.nc_driver.specs.Kept.{state, IsReady, IsDue, IsFit, ArePlaced};
ghost use Rattle.nc_driver.specs.Rests.{is_nil};

use crate::next_action::{next_rest, next_step};
use nc_checks::{DriverConfig, has_start};
use nc_num::{HartNo, NoMemory};
use nc_rules::{Lot, Next, Phase, Refusal, Seen, Step};
use nc_scen::{Op, Scenario};
use std::alloc::Global;
use std::collections::VecDeque;

/// The state of a hart's script: what is known from the start, the index of the current operation, the phase in it, the
/// rest of its plan, the lots of the hart, and what was seen last. Where steps are counted, `due` is the step that is
/// due, so that it is computed once.
#[derive(Drop)]
pub(crate) struct Course {
    pub(crate) alloc: Global,
    pub(crate) setup: DriverConfig,
    pub(crate) op: u32,
    pub(crate) phase: Phase,
    pub(crate) rest: VecDeque<Step>,
    pub(crate) lots: Vec<Lot>,
    pub(crate) saw: Seen,
    pub(crate) due: Result<Option<Step>, Refusal>,
}

impl Course {
    /// Makes the state of hart `me`'s script in a scenario, before its first operation. Fails where memory runs out.
    #[tactic(auto, unfolding(nc_rules::specs::Start::first_driver))]
    pub(crate) fn new(alloc: Global, me: HartNo, sc: &Scenario) -> Result<Course, NoMemory>
        requires hart { me.0 < length sc.now.harts }
        requires accepted { IsAccepted sc.now }
        ensures state { IfOk result (λ c. state c ≡ first_driver sc.now me) }
        ensures ready { IfOk result (λ c. IsReady (state c) c.due) }
    {
        let setup = DriverConfig::of(alloc, me, sc)?;
        let lots = Vec::new(alloc);
        let due = setup.step_due(&lots, 0, 0);
        Ok(Course {
            alloc,
            setup,
            op: 0,
            phase: Phase::Steps(0),
            rest: VecDeque::new(alloc),
            lots,
            saw: Seen::Nothing,
            due,
        })
    }

    /// Returns the current operation, or None at the script's end.
    pub(crate) fn in_hand(&self) -> Option<&Op>
        ensures op { MatchOption result (due.in_hand (state self.now) ≡ None) (λ o. due.in_hand (state self.now) ≡ Some o.now) }
        ensures here { OnSome result (self.now.op < length self.now.setup.script) }
        ensures short { IsSafe self.now.setup → IfSome result (λ o. IsShort o.now) }
    {
        self.setup.op(self.op)
    }

    /// Returns what comes next.
    #[tactic(auto, unfolding(nc_rules::specs::Driver::next_of))]
    pub(crate) fn next(&self) -> Next
        requires ready { IsReady (state self.now) self.now.due }
        ensures { result ≡ due.next_of (state self.now) }
    {
        match self.in_hand() {
            Some(op) => self.next_in(op),
            None => Next::End,
        }
    }

    /// Returns what comes next in the current operation.
    fn next_in(&self, op: &Op) -> Next
        requires op { due.in_hand (state self.now) ≡ Some op.now }
        requires due { IsDue (state self.now) self.now.due }
        ensures { result ≡ due.next_in (state self.now) op.now self.now.phase }
    {
        match self.phase {
            Phase::Steps(_) if has_start(op) => Next::Start,
            Phase::Steps(_) => next_step(&self.due),
            Phase::Search(k) => Next::Search(k),
            Phase::Work => next_rest(&self.rest),
        }
    }

    /// Returns whether at most one step is left of the plan.
    pub(crate) fn is_last(&self) -> bool
        ensures { result ≡ is_nil (drop 1 self.now.rest.items) }
    {
        self.rest.get(1).is_none()
    }

    /// Ends the current operation.
    pub(crate) fn close(&mut self)
        requires fit { IsFit self.old.setup }
        requires here { self.old.op < length self.old.setup.script }
        requires placed { ArePlaced self.old.lots.items }
        ensures state { state self.new ≡ due.over (state self.old) self.old.lots.items }
        ensures due { IsDue (state self.new) self.new.due }
    {
        self.op += 1;
        self.phase = Phase::Steps(0);
        self.rest.clear();
        self.saw = Seen::Nothing;
        self.due = self.setup.step_due(&self.lots, self.op, 0);
    }

    /// Records that `n` steps of the current operation are done, and that `step` is due.
    pub(crate) fn count(&mut self, n: u32, step: Result<Option<Step>, Refusal>, saw: Seen)
        ensures state { state self.new ≡ due.stands (state self.old) (Steps n) [] self.old.lots.items saw }
        ensures due { self.new.due ≡ step }
    {
        self.phase = Phase::Steps(n);
        self.rest.clear();
        self.saw = saw;
        self.due = step;
    }

    /// Goes on with the search for a slot at this word.
    pub(crate) fn search(&mut self, k: u32)
        ensures state { state self.new ≡ due.searches (state self.old) k }
        ensures due { IsDue (state self.new) self.new.due }
    {
        self.phase = Phase::Search(k);
        self.rest.clear();
    }

    /// Goes on with this plan. An empty plan ends the current operation.
    pub(crate) fn go(&mut self, plan: VecDeque<Step>)
        requires fit { IsFit self.old.setup }
        requires here { self.old.op < length self.old.setup.script }
        requires placed { ArePlaced self.old.lots.items }
        ensures state { state self.new ≡ due.went_to (state self.old) self.old.lots.items self.old.saw plan.items }
        ensures due { IsDue (state self.new) self.new.due }
    {
        if plan.is_empty() {
            self.close();
            return;
        }
        self.phase = Phase::Work;
        self.rest = plan;
    }

    /// Removes the first step of the plan's rest, which is done. The last one ends the current operation.
    pub(crate) fn drop_step(&mut self, saw: Seen)
        requires fit { IsFit self.old.setup }
        requires here { self.old.op < length self.old.setup.script }
        requires placed { ArePlaced self.old.lots.items }
        requires work { self.old.phase ≡ Work }
        requires some { is_nil self.old.rest.items ≡ false }
        ensures state { state self.new ≡ due.went_to (state self.old) self.old.lots.items saw (drop 1 self.old.rest.items) }
        ensures due { IsDue (state self.new) self.new.due }
    {
        if self.is_last() {
            self.close();
            return;
        }
        self.rest.pop_front();
        self.saw = saw;
    }

    /// Computes the step that is due anew, where steps are counted.
    pub(crate) fn renew(&mut self)
        requires fit { IsFit self.old.setup }
        requires placed { (n : ℕ) → self.old.phase ≡ Steps n → ArePlaced self.old.lots.items }
        ensures state { state self.new ≡ state self.old }
        ensures due { IsDue (state self.new) self.new.due }
    {
        match self.phase {
            Phase::Steps(n) => self.due = self.setup.step_due(&self.lots, self.op, n),
            Phase::Search(_) | Phase::Work => {}
        }
    }
}
