//! The texts of arguments: what an operation names.

ghost use Rattle.std.specs.Prelude.{◌≡◌, ◌<◌, ◌≤◌, length};
ghost use Rattle.nc_ops.specs.Texts.{point_at, spot_in, segment_in, mapping_in, bus_in};

use nc_values::number_in;

/// What the text of a load or a store names, before its limits are checked.
#[derive(Clone, Copy, Debug, PartialEq, Eq)]
pub enum SpotText {
    /// `bN`: a buffer.
    Buffer(u64),
    /// `cL`: a coherent area.
    Area(u64),
    /// `v`: virtual memory.
    Virtual,
}

/// What an address of a channel names, before its limits are checked.
#[derive(Clone, Copy, Debug, PartialEq, Eq)]
pub enum BusText {
    /// A bus address.
    At(u64),
    /// `mL`: a mapping.
    Map(u64),
    /// `mL.S`: a segment of a scatter list.
    Segment(u64, u64),
    /// `cL`: a coherent area.
    Area(u64),
}

/// Returns the index of the first point, or the length of the text where it has none.
fn point_at(text: &[u8]) -> usize
    ensures value { result ≡ point_at text.now }
    ensures within { result ≤ length text.now }
{
    for (i, b) in text.iter().enumerate() {
        if *b == b'.' {
            return i;
        }
    }
    text.len()
}

/// Returns what a load's or a store's text names, `bN`, `cL` or `v`, or None where it has another form.
pub fn spot_in(text: &[u8]) -> Option<SpotText>
    ensures { result ≡ spot_in text.now }
{
    match text {
        [b'v'] => Some(SpotText::Virtual),
        [b'b', rest @ ..] => number_in(rest).map(SpotText::Buffer),
        [b'c', rest @ ..] => number_in(rest).map(SpotText::Area),
        _ => None,
    }
}

/// Returns the segment that a text `L.S` names, whose point is at index `i`, or None where it has another form.
fn segment_in(text: &[u8], i: usize) -> Option<BusText>
    requires { i < length text.now }
    ensures { result ≡ segment_in i text.now }
{
    let label = number_in(&text[..i])?;
    let segment = number_in(&text[i + 1..])?;
    Some(BusText::Segment(label, segment))
}

/// Returns the mapping or segment that a text `L` or `L.S` names, or None where it has another form.
fn mapping_in(text: &[u8]) -> Option<BusText>
    ensures { result ≡ mapping_in text.now }
{
    let i = point_at(text);
    if i == text.len() {
        number_in(text).map(BusText::Map)
    } else {
        segment_in(text, i)
    }
}

/// Returns what a channel's address names, `mL`, `mL.S` or `cL`, or None where it has another form.
pub fn bus_in(text: &[u8]) -> Option<BusText>
    ensures { result ≡ bus_in text.now }
{
    match text {
        [b'm', rest @ ..] => mapping_in(rest),
        [b'c', rest @ ..] => number_in(rest).map(BusText::Area),
        _ => None,
    }
}
