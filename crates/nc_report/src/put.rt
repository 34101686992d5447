//! Bytes, numbers and digits, put behind a text with no text between.

ghost use Rattle.std.specs.Prelude.{◌≡◌, ◌≤◌, ◌<◌, ◌*◌, ◌^◌, ◌++◌, ◌∷◌, [], length, decimal, false, OnOk};
ghost use Rattle.std.specs.Fmt.{digit_glyph};
ghost use Rattle.hex.specs.Hex.{encode_lower};
ghost use Rattle.nc_rules.specs.Lines.{hex_digits};

use itoa::Buffer;
use nc_num::Bytes;
use std::alloc::AllocError;

pub(crate) fn byte(text: &mut Vec<u8>, b: u8) -> Result<(), AllocError>
    ensures { OnOk result (text.new.items ≡ text.old.items ++ b ∷ []) }
{
    text.push(b)?;
    Ok(())
}

pub(crate) fn word(text: &mut Vec<u8>, word: &str) -> Result<(), AllocError>
    ensures { OnOk result (text.new.items ≡ text.old.items ++ word.now) }
{
    text.extend_from_slice(word.as_bytes())
}

/// Puts a number in decimal digits.
pub(crate) fn number(text: &mut Vec<u8>, n: u64) -> Result<(), AllocError>
    ensures { OnOk result (text.new.items ≡ text.old.items ++ decimal n) }
{
    if n < 10 {
        return byte(text, b'0' + n as u8);
    }
    let mut buffer = Buffer::new();
    text.extend_from_slice(buffer.format(n).as_bytes())
}

/// Puts a byte, and then a number.
pub(crate) fn number_behind(text: &mut Vec<u8>, b: u8, n: u64) -> Result<(), AllocError>
    ensures { OnOk result (text.new.items ≡ text.old.items ++ b ∷ decimal n) }
{
    byte(text, b)?;
    number(text, n)
}

/// Puts a word and a number, with a blank between.
pub(crate) fn counted(text: &mut Vec<u8>, word: &str, n: u64) -> Result<(), AllocError>
    ensures { OnOk result (text.new.items ≡ text.old.items ++ (word.now ++ 32 ∷ decimal n)) }
{
    text.extend_from_slice(word.as_bytes())?;
    number_behind(text, b' ', n)
}

/// Puts a word and two numbers, with blanks between.
pub(crate) fn pair(text: &mut Vec<u8>, word: &str, m: u64, n: u64) -> Result<(), AllocError>
    ensures { OnOk result (text.new.items ≡ text.old.items ++ (word.now ++ 32 ∷ decimal m ++ 32 ∷ decimal n)) }
{
    counted(text, word, m)?;
    number_behind(text, b' ', n)
}

fn glyph(d: u64) -> u8
    requires { d < 16 }
    ensures { result ≡ digit_glyph false d }
{
    if d < 10 {
        b'0' + d as u8
    } else {
        b'a' - 10 + d as u8
    }
}

/// Puts a number in N hexadecimal digits.
fn hexadecimal<const N: usize>(text: &mut Vec<u8>, n: u64) -> Result<(), AllocError>
    requires some { 0 < N }
    requires few { N ≤ 16 }
    requires fits { n < 16 ^ N }
    ensures { OnOk result (text.new.items ≡ text.old.items ++ hex_digits N n) }
{
    let mut cells = [0u8; N];
    let mut at = N;
    let mut rest = n;
    while 0 < at {
        at -= 1;
        cells[at] = glyph(rest % 16);
        rest /= 16;
    }
    text.extend_from_slice(&cells)
}

/// Puts a number in at least three hexadecimal digits.
pub(crate) fn three(text: &mut Vec<u8>, n: u16) -> Result<(), AllocError>
    ensures { OnOk result (text.new.items ≡ text.old.items ++ hex_digits 3 n) }
{
    if n < 4096 {
        return hexadecimal::<3>(text, n as u64);
    }
    hexadecimal::<4>(text, n as u64)
}

/// Puts a number in at least six hexadecimal digits.
pub(crate) fn six(text: &mut Vec<u8>, n: u32) -> Result<(), AllocError>
    ensures { OnOk result (text.new.items ≡ text.old.items ++ hex_digits 6 n) }
{
    if n < 16777216 {
        return hexadecimal::<6>(text, n as u64);
    }
    if n < 268435456 {
        return hexadecimal::<7>(text, n as u64);
    }
    hexadecimal::<8>(text, n as u64)
}

/// Puts a number in eight hexadecimal digits.
pub(crate) fn eight(text: &mut Vec<u8>, n: u32) -> Result<(), AllocError>
    ensures { OnOk result (text.new.items ≡ text.old.items ++ hex_digits 8 n) }
{
    hexadecimal::<8>(text, n as u64)
}

/// Puts a number in sixteen hexadecimal digits.
pub(crate) fn sixteen(text: &mut Vec<u8>, n: u64) -> Result<(), AllocError>
    ensures { OnOk result (text.new.items ≡ text.old.items ++ hex_digits 16 n) }
{
    hexadecimal::<16>(text, n)
}

/// Puts some bytes in two hexadecimal digits each, which are made in these cells.
fn encoded(text: &mut Vec<u8>, bytes: &[u8], cells: &mut [u8]) -> Result<(), AllocError>
    requires { 2 * length bytes.now ≤ length cells.old }
    ensures { OnOk result (text.new.items ≡ text.old.items ++ encode_lower bytes.now) }
{
    let shown = &mut cells[..2 * bytes.len()];
    let Ok(()) = hex::encode_to_slice(bytes, shown) else {
        unreachable!();
    };
    text.extend_from_slice(shown)
}

/// Puts some bytes in two hexadecimal digits each.
pub(crate) fn digits(text: &mut Vec<u8>, bytes: &Bytes) -> Result<(), AllocError>
    ensures { OnOk result (text.new.items ≡ text.old.items ++ encode_lower bytes.now) }
{
    let bytes = bytes.as_slice();
    if bytes.len() <= 8 {
        let mut cells = [0u8; 16];
        return encoded(text, bytes, &mut cells);
    }
    let mut cells = [0u8; 256];
    encoded(text, bytes, &mut cells)
}
