//! The tokens of a schedule.

ghost use Rattle.std.specs.Prelude.{◌≡◌, ℕ, ◌<◌, ◌≤◌, ◌*◌, IfSome};
ghost use Rattle.nc_scen.specs.Tokens.{short_token, long_token, token_in};
ghost use Rattle.nc_scen.specs.Events.{IsThere};

use crate::events::Event;
use nc_num::{Block, ChanNo, HartNo};
use nc_values::{digit_below, number_below};

/// Returns the event of a token `iH`, `tH`, `gH`, `nH`, `rC` or `wC`, or None where it is no such token.
fn short_token(c: u8, n: u8, harts: u8) -> Option<Event>
    requires { harts ≤ 4 }
    ensures value { result ≡ short_token harts c n }
    ensures there { (size ram : ℕ) → IfSome result (IsThere harts size ram) }
{
    match c {
        b'i' => Some(Event::Issue(HartNo(digit_below(n, harts)?))),
        b't' => Some(Event::Try(HartNo(digit_below(n, harts)?))),
        b'g' => Some(Event::Told(HartNo(digit_below(n, harts)?), true)),
        b'n' => Some(Event::Told(HartNo(digit_below(n, harts)?), false)),
        b'r' => Some(Event::ChanRead(ChanNo(digit_below(n, 4)?))),
        b'w' => Some(Event::ChanWrite(ChanNo(digit_below(n, 4)?))),
        _ => None,
    }
}

/// Returns the event of a token `dH.I`, `fH.B` or `eH.B`, where `text` is the part after the point, or None where it is
/// no such token.
fn long_token(c: u8, n: u8, text: &[u8], harts: u8, blocks: u32) -> Option<Event>
    requires { harts ≤ 4 }
    ensures value { result ≡ long_token harts blocks c n text.now }
    ensures there { (size : ℕ) → IfSome result (IsThere harts size (size * blocks)) }
{
    let hart = HartNo(digit_below(n, harts)?);
    match c {
        b'd' => Some(Event::Drain(hart, number_below(text, 8)? as u8)),
        b'f' => {
            let block = number_below(text, u64::from(blocks))?;
            Some(Event::Fill(hart, Block(block as u32)))
        }
        b'e' => {
            let block = number_below(text, u64::from(blocks))?;
            Some(Event::Evict(hart, Block(block as u32)))
        }
        _ => None,
    }
}

/// Returns the event of a token, in a machine of `harts` harts, at most 4, and `blocks` blocks of RAM. Returns None
/// where the text is no token, or names a hart, channel, queue entry or block that is out of range.
pub fn token_in(text: &[u8], harts: u8, blocks: u32) -> Option<Event>
    requires { harts ≤ 4 }
    ensures value { result ≡ token_in harts blocks text.now }
    ensures there { (size : ℕ) → IfSome result (IsThere harts size (size * blocks)) }
{
    match text {
        [c, n] => short_token(*c, *n, harts),
        [c, n, b'.', rest @ ..] => long_token(*c, *n, rest, harts, blocks),
        _ => None,
    }
}
