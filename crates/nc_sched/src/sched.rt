//! The events of a schedule, one after another.

ghost use Rattle.std.specs.Prelude.{◌≡◌, ◌<◌, ◌≤◌, ◌+◌, ◌*◌, ◌/◌, [], ◌∷◌, length, MatchOption, IfSome, Some, None, false};
ghost use Rattle.nc_scen.specs.Accepted.{IsAccepted};
ghost use Rattle.nc_scen.specs.Events.{IsThere};
ghost use Rattle.nc_rules.specs.World.{start};
ghost use Rattle.nc_rules.specs.Events.{enabled};
ghost use Rattle.nc_rules.specs.Next.{next};
ghost use Rattle.nc_rules.specs.Schedule.{turn_event, event_of, channel_event, round_event, round_len, size_of, begun, drawn, after_words, sched};
ghost use Rattle.nc_sched.specs.Stands.{listed, first_phase, seed_of, first_stand, to_come, after_answer, is_done, enter_round, given, next_phase, next_generator};

use nc_num::{Block, ChanNo, HartNo};
use nc_scen::{Event, Plan, Scenario};
use nc_world::{Stepped, World};
use rand_core::utils::NextWord;
use rand_pcg::Lcg64Xsh32;
use std::marker::Model;

/// The stream of the generator that draws a seeded schedule.
pub const STREAM: u64 = 54;

/// The position of a schedule.
#[derive(Clone, Copy, Debug, PartialEq, Eq)]
pub enum Phase {
    /// In the list, before the event of this index.
    List(usize),
    /// Before a draw, with this many draws left.
    Drawn(u64),
    /// In a finishing round.
    Round {
        /// The index in the round of the next event.
        at: usize,
        /// Whether an event of the round was done, before the last one.
        moved: bool,
    },
}

/// The events of a scenario's schedule: a list or seeded draws, and then finishing rounds, at most as many events as
/// the limit.
#[derive(Drop)]
pub struct Sched {
    left: u64,
    phase: Phase,
    generator: Lcg64Xsh32,
}

impl Model for Sched {
    ghost use Rattle.nc_sched.specs.Stands.{Stand};

    ghost Value = { Stand };

    ghost view = { λ s. record { left = s.left; phase = s.phase; generator = s.generator } };
}

/// The start of a finishing round.
const ROUND_START: Phase = Phase::Round {
    at: 0,
    moved: false,
};

/// Returns the listed events of a plan; none where its events are drawn.
fn listed(plan: &Plan) -> &[Event]
    ensures { result.now ≡ listed plan.now }
{
    match plan {
        Plan::List(events) => events.as_slice(),
        Plan::Seeded { .. } => &[],
    }
}

/// Returns the first position of a plan.
fn first_phase(plan: &Plan) -> Phase
    ensures { result ≡ first_phase plan.now }
{
    match plan {
        Plan::List(_) => Phase::List(0),
        Plan::Seeded { seed: _, events } => Phase::Drawn(*events),
    }
}

/// Returns the seed of a plan, 0 where its events are listed.
pub fn seed_of(plan: &Plan) -> u64
    ensures { result ≡ seed_of plan.now }
{
    match plan {
        Plan::List(_) => 0,
        Plan::Seeded { seed, events: _ } => *seed,
    }
}

/// Returns the event of a driver's turn: a try where it searches for a slot, else its next step.
fn turn_event(w: &World, h: HartNo) -> Event
    requires { h.0 < length w.now.state.machine.harts }
    ensures { result ≡ turn_event w.now.state h.0 }
{
    if w.searching(h).is_some() {
        return Event::Try(h);
    }
    Event::Issue(h)
}

/// Returns the event that two drawn words give.
fn event_of(w: &World, harts: u32, blocks: u32, a: u32, b: u32) -> Event
    requires some { 0 < harts }
    requires few { harts ≤ 4 }
    requires harts { harts ≡ length w.now.state.machine.harts }
    requires blocks { 0 < blocks }
    ensures { result ≡ event_of w.now.state (record { harts = harts; blocks = blocks }) a b }
{
    let hart = HartNo((a / 16 % harts) as u8);
    let chan = ChanNo((a / 16 % 4) as u8);
    let kind = a % 16;
    if kind < 7 {
        return turn_event(w, hart);
    }
    if kind < 10 {
        return Event::Drain(hart, (b % 8) as u8);
    }
    if kind < 12 {
        return Event::ChanRead(chan);
    }
    if kind < 14 {
        return Event::ChanWrite(chan);
    }
    if kind == 14 {
        return Event::Fill(hart, Block(b % blocks));
    }
    Event::Evict(hart, Block(b % blocks))
}

/// Returns event `j`, 0 to 7, of the channels in a finishing round: for each channel in order a read and then a write.
pub fn channel_event(j: usize) -> Event
    requires { j < 8 }
    ensures { result ≡ channel_event j }
{
    let chan = ChanNo((j / 2) as u8);
    if j % 2 == 0 {
        return Event::ChanRead(chan);
    }
    Event::ChanWrite(chan)
}

/// Returns event `i` of a finishing round.
fn round_event(w: &World, harts: usize, i: usize) -> Event
    requires few { harts ≤ 4 }
    requires harts { harts ≡ length w.now.state.machine.harts }
    requires within { i < round_len harts }
    ensures { result ≡ round_event harts w.now.state i }
{
    if i < harts {
        return turn_event(w, HartNo(i as u8));
    }
    if i < 2 * harts {
        return Event::Drain(HartNo((i - harts) as u8), 0);
    }
    channel_event(i - 2 * harts)
}

/// Returns the position once the last event is answered.
fn after_answer(phase: Phase, last: Option<Stepped>) -> Phase
    ensures { result ≡ after_answer phase (is_done last) }
{
    match phase {
        Phase::List(i) => Phase::List(i),
        Phase::Drawn(k) => Phase::Drawn(k),
        Phase::Round { at, moved } => Phase::Round {
            at,
            moved: moved || matches!(last, Some(Stepped::Done)),
        },
    }
}

/// Returns the start of a finishing round where one begins at this position, else the position.
fn enter_round(sc: &Scenario, phase: Phase) -> Phase
    requires { IsAccepted sc.now }
    ensures { result ≡ enter_round sc.now phase }
{
    match phase {
        Phase::List(i) => {
            if i >= listed(&sc.plan).len() && sc.finish {
                return ROUND_START;
            }
            phase
        }
        Phase::Drawn(k) => {
            if k == 0 && sc.finish {
                return ROUND_START;
            }
            phase
        }
        Phase::Round { at, moved } => {
            if at >= 2 * sc.harts.as_slice().len() + 8 && moved {
                return ROUND_START;
            }
            phase
        }
    }
}

impl Sched {
    /// Makes the schedule of a scenario, before its first event.
    pub fn new(sc: &Scenario) -> Sched
        ensures first { result ≡ first_stand sc.now }
        ensures whole { to_come sc.now result (start sc.now) (is_done None) ≡ sched sc.now }
    {
        Sched {
            left: sc.limit,
            phase: first_phase(&sc.plan),
            generator: Lcg64Xsh32::new(seed_of(&sc.plan), STREAM),
        }
    }

    /// Makes a schedule at the start of finishing rounds, in which at most `left` more events are tried.
    pub fn rounds(left: u64) -> Sched
        ensures { result ≡ record { left = left; phase = Phase.Round 0 false; generator = begun 0 } }
    {
        Sched {
            left,
            phase: ROUND_START,
            generator: Lcg64Xsh32::new(0, STREAM),
        }
    }

    /// Draws the next event.
    fn draw(&mut self, sc: &Scenario, w: &World) -> Event
        requires accepted { IsAccepted sc.now }
        requires harts { length w.now.state.machine.harts ≡ length sc.now.harts }
        ensures event { result ≡ drawn w.now.state (size_of sc.now) self.old.generator }
        ensures state { self.new ≡ record { left = self.old.left; phase = self.old.phase; generator = after_words self.old.generator } }
    {
        let a = self.generator.next_word();
        let b = self.generator.next_word();
        event_of(
            w,
            sc.harts.as_slice().len() as u32,
            sc.ram / sc.block_size,
            a,
            b,
        )
    }

    /// Returns the event at the position `phase` and advances past it, or None where there is none.
    fn take_event(&mut self, sc: &Scenario, w: &World, phase: Phase) -> Option<Event>
        requires accepted { IsAccepted sc.now }
        requires harts { length w.now.state.machine.harts ≡ length sc.now.harts }
        ensures event { result ≡ given sc.now phase self.old.generator w.now.state }
        ensures state { IfSome result (λ e. self.new ≡ record { left = self.old.left; phase = next_phase phase; generator = next_generator phase self.old.generator }) }
        ensures left { self.new.left ≡ self.old.left }
    {
        match phase {
            Phase::List(i) => {
                let e = *listed(&sc.plan).get(i)?;
                self.phase = Phase::List(i + 1);
                Some(e)
            }
            Phase::Drawn(k) => {
                if k == 0 {
                    return None;
                }
                self.phase = Phase::Drawn(k - 1);
                Some(self.draw(sc, w))
            }
            Phase::Round { at, moved } => {
                let harts = sc.harts.as_slice().len();
                if at >= 2 * harts + 8 {
                    return None;
                }
                self.phase = Phase::Round { at: at + 1, moved };
                Some(round_event(w, harts, at))
            }
        }
    }

    /// Returns the next event to try and advances past it, or None where the schedule is at its end. The scenario is
    /// the one of `new`, the world is the run of the events returned so far, and `last` is the answer to the last of
    /// them, None before the first. The hart, block or channel of the event exists.
    pub fn next(&mut self, sc: &Scenario, w: &World, last: Option<Stepped>) -> Option<Event>
        requires accepted { IsAccepted sc.now }
        requires harts { length w.now.state.machine.harts ≡ length sc.now.harts }
        ensures event { MatchOption result (to_come sc.now self.old w.now.state (is_done last) ≡ [])
            (λ e. to_come sc.now self.old w.now.state (is_done last) ≡ e ∷ to_come sc.now self.new (next w.now.state e) (enabled w.now.state e)) }
        ensures fewer { IfSome result (λ e. self.new.left < self.old.left) }
        ensures there { IfSome result (IsThere (length sc.now.harts) sc.now.block_size sc.now.ram) }
    {
        if self.left == 0 {
            return None;
        }
        let phase = enter_round(sc, after_answer(self.phase, last));
        let Some(e) = self.take_event(sc, w, phase) else {
            return None;
        };
        self.left -= 1;
        Some(e)
    }
}
