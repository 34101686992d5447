//! What comes next, by the step that is due.

ghost use Rattle.std.specs.Prelude.{◌≡◌};
ghost use Rattle.nc_rules.specs.Driver as due;
ghost use Rattle.nc_driver.specs.Rests.{is_more, made_first, made_last};

use nc_rules::{Act, Next, Refusal, Seen, Step, Turn};
use std::collections::VecDeque;

fn next_act(act: &Act) -> Next
    ensures { result ≡ due.next_act act.now }
{
    match act {
        Act::Op(op) => Next::Op(*op),
        Act::Claim(chan) => Next::Claim(*chan),
        Act::Poll(chan) => Next::Poll(*chan),
        Act::Take(buf) => Next::Take(*buf),
    }
}

/// Returns what a step leaves to do next: a refused step is a start.
pub(crate) fn next_step(step: &Result<Option<Step>, Refusal>) -> Next
    ensures { result ≡ due.next_step step.now }
{
    match step {
        Ok(Some(step)) => next_act(&step.act),
        Ok(None) | Err(_) => Next::Start,
    }
}

/// Returns what the first step of a plan's rest leaves to do next.
pub(crate) fn next_rest(rest: &VecDeque<Step>) -> Next
    ensures { result ≡ due.next_rest rest.now.items }
{
    match rest.front() {
        Some(step) => next_act(&step.act),
        None => Next::Start,
    }
}

/// Returns whether such a step exists, even if it is refused.
pub(crate) fn is_more(step: &Result<Option<Step>, Refusal>) -> bool
    ensures { result ≡ is_more step.now }
{
    match step {
        Ok(None) => false,
        Ok(Some(_)) | Err(_) => true,
    }
}

/// Returns the turn before a step; Stay where there is no step.
pub(crate) fn first_turn(step: &Result<Option<Step>, Refusal>) -> Turn
    ensures { result ≡ made_first step.now }
{
    match step {
        Ok(Some(step)) => step.first,
        Ok(None) | Err(_) => Turn::Stay,
    }
}

/// Returns the turn after a step; Stay where there is no step.
pub(crate) fn last_turn(step: &Result<Option<Step>, Refusal>) -> Turn
    ensures { result ≡ made_last step.now }
{
    match step {
        Ok(Some(step)) => step.last,
        Ok(None) | Err(_) => Turn::Stay,
    }
}

/// Returns the refusal of a claim that found the channel granted.
pub(crate) fn busy(saw: Seen) -> Option<Refusal>
    ensures { result ≡ due.busy saw }
{
    match saw {
        Seen::Busy(hart) => Some(Refusal::ChannelBusy(hart)),
        Seen::Nothing | Seen::Control(_) | Seen::Claimed | Seen::Value(_) => None,
    }
}

/// Returns what was seen last, other than Nothing.
pub(crate) fn kept(old: Seen, new: Seen) -> Seen
    ensures { result ≡ due.kept old new }
{
    match new {
        Seen::Nothing => old,
        Seen::Control(_) | Seen::Claimed | Seen::Busy(_) | Seen::Value(_) => new,
    }
}
