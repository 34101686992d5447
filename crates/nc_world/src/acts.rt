//! The machine's part of an event, and its records.

ghost use Rattle.std.specs.Prelude.{◌≡◌, ◌≤◌, ◌<◌, ◌+◌, ◌==◌, ◌++◌, length, IsTrue, Some};
ghost use Rattle.std.specs.List.{list_all};
ghost use Rattle.nc_rules.specs.Calls.{may_issue, issue_next, issue_answer, leaving, drain_next};
ghost use Rattle.nc_rules.specs.Events.{is_over};
ghost use Rattle.nc_rules.specs.Outcomes.{seen_of};
ghost use Rattle.nc_rules.specs.Records.{op_records, drain_records};
ghost use Rattle.nc_rules.specs.Sound.{OpIsThere};
ghost use Rattle.nc_world.specs.Looks.{transaction, chan_step, chan_next, chan_records};
ghost use Rattle.nc_world.specs.Steps.{NextFits, CanAct, act_records, step_seen, step_machine};

use nc_log::Log;
use nc_machine::Machine;
use nc_num::{ChanNo, HartNo};
use nc_own::Access;
use nc_pdma::ChanStep;
use nc_plan::HartOp;
use nc_queue::Entry;
use nc_rules::{Next, Seen};
use nc_scen::Event;

/// Returns whether a transfer is over, by the channel's Control: bit 30 (done) or bit 31 (error) is set.
pub(crate) fn is_over(control: u32) -> bool
    ensures { result ≡ is_over control }
{
    control >> 30 & 1 == 1 || control >> 31 & 1 == 1
}

// ---- a driver's step

/// Returns what hart h's next step sees: the value of a register, the hart that a channel is granted to, or Control.
pub(crate) fn seen(machine: &Machine, h: HartNo, next: &Next) -> Seen
    requires hart { h.0 < length machine.now.machine.harts }
    requires there { NextFits machine.now.machine h.0 next.now }
    ensures { result ≡ step_seen machine.now.machine h next.now }
{
    match next {
        Next::Op(op) => seen_by(machine, h, op),
        Next::Claim(chan) => match machine.grantee(*chan) {
            None => Seen::Claimed,
            Some(g) => Seen::Busy(g),
        },
        Next::Poll(chan) => Seen::Control(machine.control(*chan)),
        Next::End | Next::Start | Next::Search(_) | Next::Take(_) => Seen::Nothing,
    }
}

/// Returns what a hart's operation shows its driver: a load of a register shows the register's value.
fn seen_by(machine: &Machine, h: HartNo, op: &HartOp) -> Seen
    requires { OpIsThere machine.now.machine h.0 op.now }
    ensures { result ≡ seen_of (issue_answer machine.now.machine h.0 op.now) }
{
    let _h = h;
    match op {
        HartOp::IoLoad { chan, off, width } => Seen::Value(machine.register(*chan, *off, *width)),
        HartOp::Load { .. }
        | HartOp::Store { .. }
        | HartOp::Cbo { .. }
        | HartOp::Fence { .. }
        | HartOp::IoStore(_)
        | HartOp::Mark { .. } => Seen::Nothing,
    }
}

/// Makes the machine's part of a step of hart h's driver, and its records: an operation, a claim or a take.
pub(crate) fn act(
    machine: &mut Machine,
    log: &mut Log,
    size: u32,
    h: HartNo,
    by_script: bool,
    next: &Next,
)
    requires size { size ≡ machine.old.machine.size }
    requires hart { h.0 < length machine.old.machine.harts }
    requires there { NextFits machine.old.machine h.0 next.now }
    requires can { CanAct machine.old.machine h.0 next.now }
    requires spare { 1 ≤ machine.old.spare }
    requires room { 7 ≤ log.old.room }
    ensures state { machine.new.machine ≡ step_machine machine.old.machine h next.now }
    ensures records { log.new.records ≡ log.old.records ++ act_records machine.old.machine h by_script next.now }
    ensures room { log.old.room ≤ log.new.room + 7 }
{
    machine.sound();
    match next {
        Next::Op(op) => issue(machine, log, size, h, by_script, op),
        Next::Claim(chan) => {
            let _ = machine.claim(h, *chan);
        }
        Next::Take(buf) => {
            machine.take(h, *buf);
        }
        Next::End | Next::Start | Next::Search(_) | Next::Poll(_) => {}
    }
}

/// Has hart h issue an operation, and records it.
fn issue(machine: &mut Machine, log: &mut Log, size: u32, h: HartNo, by_script: bool, op: &HartOp)
    requires size { size ≡ machine.old.machine.size }
    requires hart { h.0 < length machine.old.machine.harts }
    requires there { OpIsThere machine.old.machine h.0 op.now }
    requires can { IsTrue (may_issue machine.old.machine h.0 op.now) }
    requires spare { 1 ≤ machine.old.spare }
    requires room { 7 ≤ log.old.room }
    ensures state { machine.new.machine ≡ issue_next machine.old.machine h.0 op.now }
    ensures records { log.new.records ≡ log.old.records ++ op_records machine.old.machine h by_script op.now }
    ensures room { log.old.room ≤ log.new.room + 7 }
{
    machine.sound();
    let last = *machine.last(h);
    let issued = machine.issue(h, *op);
    log.issued(size, h, by_script, op, &last, &issued);
}

// ---- the other events

/// Drains entry i of hart h's queue, which is `entry`, and records it with its bus transfers.
pub(crate) fn drain(
    machine: &mut Machine,
    log: &mut Log,
    size: u32,
    h: HartNo,
    i: u8,
    entry: &Entry,
)
    requires size { size ≡ machine.old.machine.size }
    requires hart { h.0 < length machine.old.machine.harts }
    requires leaves { leaving machine.old.machine h.0 i ≡ Some entry.now }
    requires spare { 1 ≤ machine.old.spare }
    requires room { 8 ≤ log.old.room }
    ensures state { machine.new.machine ≡ drain_next machine.old.machine h.0 i }
    ensures records { log.new.records ≡ log.old.records ++ drain_records machine.old.machine h entry.now }
    ensures room { log.old.room ≤ log.new.room + 8 }
{
    machine.sound();
    let Some((entry, bus)) = machine.drain(h, i) else {
        unreachable!()
    };
    log.drained(size, h, &entry);
    log.transfers(size, bus.as_slice());
}

/// Returns the event in which a channel reads or writes memory.
pub(crate) fn transaction(c: ChanNo, access: Access) -> Event
    ensures { result ≡ transaction c access }
{
    match access {
        Access::Read => Event::ChanRead(c),
        Access::Write => Event::ChanWrite(c),
    }
}

/// Makes a read or a write of a channel, where it may be made.
pub(crate) fn transact(machine: &mut Machine, c: ChanNo, access: Access) -> ChanStep
    requires { c.0 < 4 }
    ensures state { machine.new.machine ≡ chan_next machine.old.machine c.0 access }
    ensures step { result ≡ chan_step machine.old.machine c.0 access }
{
    match access {
        Access::Read => machine.chan_read(c),
        Access::Write => machine.chan_write(c),
    }
}

/// Records a channel's transaction.
pub(crate) fn transacted(log: &mut Log, c: ChanNo, access: Access, moved: &ChanStep)
    requires { 2 ≤ log.old.room }
    ensures { log.new.records ≡ log.old.records ++ chan_records c access moved.now }
{
    match access {
        Access::Read => log.chan_read(c, moved),
        Access::Write => log.chan_write(c, moved),
    }
}

/// Returns whether each store queue is empty.
pub(crate) fn are_empty(machine: &Machine, harts: u8) -> bool
    requires { harts ≡ length machine.now.machine.harts }
    ensures { result ≡ list_all (λ s. length s.queue.entries == 0) machine.now.machine.harts }
{
    for h in 0..harts {
        if machine.queued(HartNo(h)) != 0 {
            return false;
        }
    }
    true
}
