//! The parts of a mapping, and the rule of when a range bounces.

ghost use Rattle.std.specs.Prelude.{◌≡◌, ◌+◌, ◌<◌, ◌^◌};
ghost use Rattle.nc_num.specs.Sizes.{IsBlockSize};
ghost use Rattle.nc_plan.specs.Parts.{is_bounced, comes_back, is_whole, bounces, DeviceRangeIsInSlot};

use nc_num::{Dir, Span};

/// A range of RAM that is lent to a channel, and the range by which the channel sees it. The two have equal lengths.
/// They are one range where the part is direct. Where it bounces, the device range lies in a bounce slot, and the two
/// start at the same distance from a multiple of 8.
#[derive(Clone, Copy, Debug, PartialEq, Eq)]
pub struct Part {
    /// The buffer's range.
    pub buffer: Span,
    /// The range that the channel reads or writes.
    pub device: Span,
    /// The direction of the mapping.
    pub dir: Dir,
}

/// Returns whether a range bounces. It does where the device may write it and it is not made of whole blocks, so that
/// an invalidate would drop bytes of its neighbours, and where its end lies past the channel's reach, in bytes of RAM.
/// The rule is this project's own, after the advice of the Linux DMA API that mappings begin and end on cache line
/// boundaries.
pub fn bounces(span: Span, dir: Dir, block_size: u32, reach: u32) -> bool
    requires size { IsBlockSize block_size }
    requires ends { span.at + span.len < 2 ^ 32 }
    ensures { result ≡ bounces span dir block_size reach }
{
    let Span { at, len } = span;
    let partial = at % block_size != 0 || len % block_size != 0;
    comes_back(dir) && partial || reach < at + len
}

/// Returns whether the device may write a range of this direction, so that its bytes come back.
pub(crate) fn comes_back(dir: Dir) -> bool
    ensures { result ≡ comes_back dir }
{
    match dir {
        Dir::ToDev => false,
        Dir::Both | Dir::FromDev => true,
    }
}

/// Returns whether a part bounces: its device range is not that of its buffer.
pub(crate) fn is_bounced(part: &Part) -> bool
    ensures { result ≡ is_bounced part.now }
{
    part.buffer.at != part.device.at
}

/// Proves that the device range of a bounced range that is not too big lies in its slot.
pub fn device_range_is_in_slot()
    ensures { DeviceRangeIsInSlot }
{}
