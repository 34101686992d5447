//! The steps that the machine makes, and the tokens that leave the queue.

ghost use Rattle.std.specs.Prelude.{ℕ, ◌≡◌, ◌+◌, ◌<◌, [], true, false, length, drop, IfOk, OnOk, OnErr, Some, Ok};
ghost use Rattle.nc_ops.specs.declared.ops.Op.{Op};
ghost use Rattle.nc_rules.specs.declared.steps.Phase.TheVariants.{Steps, Work};
ghost use Rattle.nc_rules.specs.declared.steps.Step.{Step};
ghost use Rattle.nc_rules.specs.Driver as due;
ghost use Rattle.nc_rules.specs.Lots.{lot_id};
ghost use Rattle.nc_rules.specs.Turns.{lots_after_both, turned};
ghost use Rattle.nc_scripts.specs.Scripts.{is_act};
ghost use Rattle.nc_scripts.specs.Drivers.{AreThere, IsSeenAt, IsLentAt};
ghost use Rattle.nc_checks.specs.Due.{step_due};
ghost use Rattle.nc_moves.specs.MovesView.{moves_view};
ghost use Rattle.nc_driver.specs.Kept.{state, IsReady, IsDue, IsFit, ArePlaced, AreNamed, IsSound};
ghost use Rattle.nc_driver.specs.Rests.{made_first, made_last};

use crate::course::Course;
use crate::next_action::{busy, first_turn, is_more, kept, last_turn};
use nc_lots::turn;
use nc_moves::Moves;
use nc_num::{Label, NoMemory};
use nc_planned::good_answer;
use nc_rules::{Answer, LotId, Phase, Refusal, Seen, Step, Turn};

impl Course {
    /// Tells the driver what a step saw that the machine made.
    pub(crate) fn done(&mut self, seen: Seen) -> Result<Moves, NoMemory>
        requires ready { IsReady (state self.old) self.old.due }
        requires next { is_act (due.next_of (state self.old)) ≡ true }
        requires seen { IsSeenAt (due.next_of (state self.old)) seen }
        ensures driver { IfOk result (λ m. state self.new ≡ (due.done (state self.old) seen).driver) }
        ensures moves { IfOk result (λ m. moves_view m ≡ (due.done (state self.old) seen).moves) }
        ensures err { OnErr result (state self.new ≡ state self.old) }
        ensures due { IsDue (state self.new) self.new.due }
    {
        if let Some(refusal) = busy(seen) {
            return self.give_up(refusal);
        }
        let saw = kept(self.saw, seen);
        match self.phase {
            Phase::Steps(n) => self.step(n, saw),
            Phase::Search(_) => Ok(Moves::answer(self.alloc, None)),
            Phase::Work => self.work(saw),
        }
    }

    /// Makes step n of the current operation, which is due. Its turns are of ranges.
    fn step(&mut self, n: u32, saw: Seen) -> Result<Moves, NoMemory>
        requires ready { IsReady (state self.old) self.old.due }
        requires phase { self.old.phase ≡ Steps n }
        requires next { is_act (due.next_of (state self.old)) ≡ true }
        requires sound { (o : Op) → due.in_hand (state self.old) ≡ Some o → IsSound (due.done_in (state self.old) o saw (Steps n)) }
        ensures driver { (o : Op) → due.in_hand (state self.old) ≡ Some o → IfOk result (λ m. state self.new ≡ (due.done_in (state self.old) o saw (Steps n)).driver) }
        ensures moves { (o : Op) → due.in_hand (state self.old) ≡ Some o → IfOk result (λ m. moves_view m ≡ (due.done_in (state self.old) o saw (Steps n)).moves) }
        ensures err { OnErr result (state self.new ≡ state self.old) }
        ensures due { IsDue (state self.new) self.new.due }
    {
        let after = self.setup.step_due(&self.lots, self.op, n + 1);
        let answer = self.step_answer(&after, saw);
        let (first, last) = (first_turn(&self.due), last_turn(&self.due));
        let moves = self.turned(first, last, answer)?;
        self.advance(n, after, saw);
        Ok(moves)
    }

    /// Returns the answer of the current operation, where `after` is the step after the one that is due.
    fn step_answer(&self, after: &Result<Option<Step>, Refusal>, saw: Seen) -> Option<Answer>
        requires fit { IsFit self.now.setup }
        requires placed { ArePlaced self.now.lots.items }
        ensures { (o : Op) → due.in_hand (state self.now) ≡ Some o → result ≡ due.step_answer (state self.now) o saw after.now }
    {
        let Some(op) = self.in_hand() else {
            return None;
        };
        match after {
            Ok(None) => good_answer(self.setup.slots_at(), &self.lots, op, saw),
            Ok(Some(_)) | Err(_) => None,
        }
    }

    /// Records that step n of the current operation is done, and that `after` is due. Where there is no such step, the
    /// operation ends.
    fn advance(&mut self, n: u32, after: Result<Option<Step>, Refusal>, saw: Seen)
        requires fit { IsFit self.old.setup }
        requires here { self.old.op < length self.old.setup.script }
        requires placed { ArePlaced self.old.lots.items }
        requires few { n < 4096 }
        requires after { after ≡ step_due self.old.setup self.old.lots.items self.old.op (n + 1) }
        ensures state { state self.new ≡ due.stepped_to (state self.old) (n + 1) self.old.lots.items saw after }
        ensures due { IsDue (state self.new) self.new.due }
    {
        if is_more(&after) {
            self.count(n + 1, after, saw);
            return;
        }
        self.close();
    }

    /// Makes the first step of the plan's rest.
    fn work(&mut self, saw: Seen) -> Result<Moves, NoMemory>
        requires fit { IsFit self.old.setup }
        requires here { self.old.op < length self.old.setup.script }
        requires phase { self.old.phase ≡ Work }
        requires some { 0 < length self.old.rest.items }
        requires placed { ArePlaced self.old.lots.items }
        requires named { AreNamed self.old.lots.items }
        requires sound { (o : Op) → due.in_hand (state self.old) ≡ Some o → IsSound (due.worked (state self.old) o saw self.old.rest.items) }
        ensures driver { (o : Op) → due.in_hand (state self.old) ≡ Some o → IfOk result (λ m. state self.new ≡ (due.worked (state self.old) o saw self.old.rest.items).driver) }
        ensures moves { (o : Op) → due.in_hand (state self.old) ≡ Some o → IfOk result (λ m. moves_view m ≡ (due.worked (state self.old) o saw self.old.rest.items).moves) }
        ensures err { OnErr result (state self.new ≡ state self.old) }
        ensures due { IsDue (state self.new) self.new.due }
    {
        let Some(step) = self.rest.front() else {
            unreachable!()
        };
        let (first, last) = (step.first, step.last);
        let answer = self.last_answer(saw);
        let moves = self.turned(first, last, answer)?;
        turn(&mut self.lots, first);
        turn(&mut self.lots, last);
        self.drop_step(saw);
        Ok(moves)
    }

    /// Returns the answer of the current operation, where its plan ends with the first step of the rest.
    fn last_answer(&self, saw: Seen) -> Option<Answer>
        requires fit { IsFit self.now.setup }
        requires placed { ArePlaced self.now.lots.items }
        ensures { (o : Op) → due.in_hand (state self.now) ≡ Some o → result ≡ due.answered (state self.now) o saw (drop 1 self.now.rest.items) }
    {
        match self.in_hand() {
            Some(op) if self.is_last() => good_answer(self.setup.slots_at(), &self.lots, op, saw),
            Some(_) | None => None,
        }
    }

    /// Returns what two turns change, one after the other, with an answer.
    pub(crate) fn turned(
        &self,
        first: Turn,
        last: Turn,
        answer: Option<Answer>,
    ) -> Result<Moves, NoMemory>
        requires fit { IsFit self.now.setup }
        requires named { AreNamed self.now.lots.items }
        requires few { (ram : ℕ) × AreThere ram self.now.setup (turned self.now.setup self.now.lots.items first last answer) }
        ensures { IfOk result (λ m. moves_view m ≡ turned self.now.setup self.now.lots.items first last answer) }
    {
        let setup = &self.setup;
        Moves::turn(
            self.alloc,
            setup.me(),
            setup.slots_at(),
            &self.lots,
            first,
            last,
            answer,
        )
    }

    /// Tells the driver that the token of a lot has left the hart's queue, with which the lot is the device's.
    pub(crate) fn lent(&mut self, label: Label, first: u8) -> Result<Moves, NoMemory>
        requires ready { IsReady (state self.old) self.old.due }
        requires lent { IsLentAt self.old.lots.items (lot_id label first) }
        ensures driver { IfOk result (λ m. state self.new ≡ (due.lent (state self.old) label first).driver) }
        ensures moves { IfOk result (λ m. moves_view m ≡ (due.lent (state self.old) label first).moves) }
        ensures err { OnErr result (state self.new ≡ state self.old) }
        ensures due { IsDue (state self.new) self.new.due }
    {
        let give = Turn::Give(LotId { label, first });
        let moves = self.turned(give, Turn::Stay, None)?;
        turn(&mut self.lots, give);
        self.renew();
        Ok(moves)
    }
}
