//! Single values: their shapes and their limits.

ghost use Rattle.std.specs.Prelude.{◌≡◌, ◌<◌, ◌≤◌, ◌^◌, ◌-◌, IfOk, MatchResult};
ghost use Rattle.serde_json.specs.View.{view, items_view};
ghost use Rattle.nc_env.specs.Enables.{IsEnvcfg};
ghost use Rattle.nc_pte.specs.Words.{IsPteWord};
ghost use Rattle.nc_values.specs.Values.{FitsLabel, HasNoRepeat, number_of, text_of, list_of, truth_of, mode_of, fences_of, cbo_of, most, below, label_in, hart_in, chan_in, dir_in, once, register_of, word_of, is_size, is_ram, wide};

use crate::wrong::Wrong;
use nc_env::{CboOp, Mode};
use nc_num::{ChanNo, Dir, HartNo, Label};
use nc_pte::is_pte_word;
use serde_json::Value;

/// Returns the whole number that a value is, from 0 to 2^64 - 1.
///
/// # Errors
///
/// `Shape` where the value is no such number.
pub fn number(value: &Value) -> Result<u64, Wrong>
    ensures { result ≡ number_of (view value.now) }
{
    match value.as_u64() {
        Some(n) => Ok(n),
        None => Err(Wrong::Shape),
    }
}

/// Returns the text that a value is.
///
/// # Errors
///
/// `Shape` where the value is no text.
pub fn text(value: &Value) -> Result<&str, Wrong>
    ensures { MatchResult result (λ s. text_of (view value.now) ≡ Ok s.now) (λ e. text_of (view value.now) ≡ Err e) }
{
    match value.as_str() {
        Some(s) => Ok(s),
        None => Err(Wrong::Shape),
    }
}

/// Returns the values of the list that a value is.
///
/// # Errors
///
/// `Shape` where the value is no list.
pub fn list(value: &Value) -> Result<&Vec<Value>, Wrong>
    ensures { MatchResult result (λ v. list_of (view value.now) ≡ Ok (items_view v.now.items)) (λ e. list_of (view value.now) ≡ Err e) }
{
    match value.as_array() {
        Some(items) => Ok(items),
        None => Err(Wrong::Shape),
    }
}

/// Returns the truth value that a value is.
///
/// # Errors
///
/// `Shape` where the value is neither true nor false.
pub fn truth(value: &Value) -> Result<bool, Wrong>
    ensures { result ≡ truth_of (view value.now) }
{
    match value.as_bool() {
        Some(b) => Ok(b),
        None => Err(Wrong::Shape),
    }
}

/// Returns the privilege mode that a value names: "M", "S" or "U" (RISC-V Privileged Architecture).
///
/// # Errors
///
/// `Shape` where the value is no such text.
pub fn mode(value: &Value) -> Result<Mode, Wrong>
    ensures { result ≡ mode_of (view value.now) }
{
    match value.as_str() {
        Some("M") => Ok(Mode::M),
        Some("S") => Ok(Mode::S),
        Some("U") => Ok(Mode::U),
        _ => Err(Wrong::Shape),
    }
}

/// Returns whether fences are light: the value is "light" or "full".
///
/// # Errors
///
/// `Shape` where the value is neither text.
pub fn fences(value: &Value) -> Result<bool, Wrong>
    ensures { result ≡ fences_of (view value.now) }
{
    match value.as_str() {
        Some("full") => Ok(false),
        Some("light") => Ok(true),
        _ => Err(Wrong::Shape),
    }
}

/// Returns the cache-block operation that a value names: "clean", "flush", "inval" or "zero" (RISC-V CMO 1.0).
///
/// # Errors
///
/// `Shape` where the value is no such text.
pub fn cbo_kind(value: &Value) -> Result<CboOp, Wrong>
    ensures { result ≡ cbo_of (view value.now) }
{
    match value.as_str() {
        Some("clean") => Ok(CboOp::Clean),
        Some("flush") => Ok(CboOp::Flush),
        Some("inval") => Ok(CboOp::Inval),
        Some("zero") => Ok(CboOp::Zero),
        _ => Err(Wrong::Shape),
    }
}

/// Tests that `n` is at most `top`, and returns it.
///
/// # Errors
///
/// `Limit` with `n` where it is above `top`.
pub fn most(n: u64, top: u64) -> Result<u64, Wrong>
    ensures value { result ≡ most top n }
    ensures most { IfOk result (λ m. m ≤ top) }
{
    if n <= top {
        Ok(n)
    } else {
        Err(Wrong::Limit(n))
    }
}

/// Tests that `n` is at most 2^32 - 1, and returns it.
///
/// # Errors
///
/// `Limit` with `n` where it is above that.
pub fn wide(n: u64) -> Result<u32, Wrong>
    ensures { result ≡ wide n }
{
    if n <= 4_294_967_295 {
        Ok(n as u32)
    } else {
        Err(Wrong::Limit(n))
    }
}

/// Tests that `n` is below `bound`, and returns it.
///
/// # Errors
///
/// `Limit` with `n` where it is not.
pub fn below(n: u64, bound: u8) -> Result<u8, Wrong>
    ensures value { result ≡ below bound n }
    ensures below { IfOk result (λ m. m < bound) }
{
    if n < u64::from(bound) {
        Ok(n as u8)
    } else {
        Err(Wrong::Limit(n))
    }
}

/// Returns the label `n`, 0 to 999.
///
/// # Errors
///
/// `Limit` with `n` where it is above 999.
pub fn label(n: u64) -> Result<Label, Wrong>
    ensures value { result ≡ label_in n }
    ensures fits { IfOk result FitsLabel }
{
    if n <= 999 {
        Ok(Label(n as u32))
    } else {
        Err(Wrong::Limit(n))
    }
}

/// Returns the hart `n`, below `harts`.
///
/// # Errors
///
/// `Limit` with `n` where no such hart exists.
pub fn hart(n: u64, harts: u8) -> Result<HartNo, Wrong>
    ensures value { result ≡ hart_in harts n }
    ensures there { IfOk result (λ h. h.0 < harts) }
{
    if n < u64::from(harts) {
        Ok(HartNo(n as u8))
    } else {
        Err(Wrong::Limit(n))
    }
}

/// Returns the channel `n`, 0 to 3.
///
/// # Errors
///
/// `Limit` with `n` where it is above 3.
pub fn chan(n: u64) -> Result<ChanNo, Wrong>
    ensures value { result ≡ chan_in n }
    ensures there { IfOk result (λ c. c.0 < 4) }
{
    if n < 4 {
        Ok(ChanNo(n as u8))
    } else {
        Err(Wrong::Limit(n))
    }
}

/// Returns the direction of number `n`: 0 for both, 1 to the device, 2 from the device (Linux DMA API).
///
/// # Errors
///
/// `Limit` with `n` where it is above 2.
pub fn dir(n: u64) -> Result<Dir, Wrong>
    ensures { result ≡ dir_in n }
{
    match n {
        0 => Ok(Dir::Both),
        1 => Ok(Dir::ToDev),
        2 => Ok(Dir::FromDev),
        _ => Err(Wrong::Limit(n)),
    }
}

/// The repeat bit of a Config value, bit 2.
const REPEAT: u64 = 4;

/// Tests that `cfg` is a Config value of 32 bits without the repeat bit, and returns it.
///
/// # Errors
///
/// `Limit` with `cfg` where it is not.
pub fn once(cfg: u64) -> Result<u32, Wrong>
    ensures value { result ≡ once cfg }
    ensures fits { IfOk result HasNoRepeat }
{
    if cfg < 4_294_967_296 && cfg / REPEAT % 2 == 0 {
        Ok(cfg as u32)
    } else {
        Err(Wrong::Limit(cfg))
    }
}

/// Returns the value of an environment register, whose CBIE is not the reserved 10 (RISC-V CMO 1.0).
///
/// # Errors
///
/// `Shape` where the value is no number; `Limit` with the number where its CBIE is 10.
pub fn register(value: &Value) -> Result<u64, Wrong>
    ensures value { result ≡ register_of (view value.now) }
    ensures known { IfOk result IsEnvcfg }
{
    let n = number(value)?;
    if n >> 4 & 3 == 2 {
        Err(Wrong::Limit(n))
    } else {
        Ok(n)
    }
}

/// Returns the leaf PTE word that a value is, which is valid for a RAM of `ram` bytes (Svpbmt).
///
/// # Errors
///
/// `Shape` where the value is no number; `Limit` with the number where it is no such word.
pub fn word(value: &Value, ram: u32) -> Result<u64, Wrong>
    ensures value { result ≡ word_of ram (view value.now) }
    ensures valid { IfOk result (IsPteWord ram) }
{
    let n = number(value)?;
    if is_pte_word(ram, n) {
        Ok(n)
    } else {
        Err(Wrong::Limit(n))
    }
}

/// Returns whether a block can have `n` bytes: 32, 64 or 128.
pub fn is_size(n: u64) -> bool
    ensures { result ≡ is_size n }
{
    n == 32 || n == 64 || n == 128
}

/// Returns whether RAM can have `n` bytes: a multiple of 4,096, from 4,096 to 1,048,576.
pub fn is_ram(n: u64) -> bool
    ensures { result ≡ is_ram n }
{
    n % 4096 == 0 && 4096 <= n && n <= 1_048_576
}
