//! Operations on channels by their registers.

ghost use Rattle.std.specs.Prelude.{◌≡◌};
ghost use Rattle.nc_rules.specs.Channels as rules;

use nc_rules::{Answer, Seen};

/// Returns Error where bit 31 of Control is set, else Done.
fn polled(control: u32) -> Answer
    ensures { result ≡ rules.polled control }
{
    if control >> 31 & 1 == 1 {
        Answer::Error(control)
    } else {
        Answer::Done(control)
    }
}

/// The answer of a poll, by the value of Control that it saw.
pub(crate) fn poll_answer(saw: Seen) -> Option<Answer>
    ensures { result ≡ rules.poll_answer saw }
{
    match saw {
        Seen::Control(control) => Some(polled(control)),
        Seen::Nothing | Seen::Claimed | Seen::Busy(_) | Seen::Value(_) => None,
    }
}

/// The answer of a read of a register, by the value that it saw.
pub(crate) fn value_answer(saw: Seen) -> Option<Answer>
    ensures { result ≡ rules.value_answer saw }
{
    match saw {
        Seen::Value(value) => Some(Answer::Value(value)),
        Seen::Nothing | Seen::Control(_) | Seen::Claimed | Seen::Busy(_) => None,
    }
}
