//! The channels: claims, and the change of one channel among them.

ghost use Rattle.std.specs.Prelude.{◌≡◌, ◌<◌, None, false, length, slice_index_or, slice_set};
ghost use Rattle.nc_pdma_regs.specs.Control.{number_of};
ghost use Rattle.nc_pdma_regs.specs.Laws.{claimed};
ghost use Rattle.nc_pdma.specs.Channel.{IsChannel, new_channel, channel_write};
ghost use Rattle.nc_pdma.specs.Steps.{read_step, read_next, write_step, write_next, ram_after};
ghost use Rattle.nc_rules.specs.Calls.{grantee_after, is_claimed};

use nc_mem::Ram;
use nc_num::{ChanNo, HartNo};
use nc_pdma::{ChanStep, Channel};
use nc_pdma_regs::CONTROL;

/// The claim bit of Control.
const CLAIM: u32 = 1;

/// Returns the value of a channel's Control.
#[tactic(auto, using(crate::proofs::Claims::control_rules))]
pub(crate) fn control(channel: &Channel) -> u32
    ensures value { result ≡ number_of channel.now.regs.control }
    ensures sound { IsChannel channel.now }
{
    match channel.read(CONTROL, 4) {
        Ok(value) => value as u32,
        Err(_) => unreachable!(),
    }
}

/// Returns whether a channel's claim bit is set.
#[tactic(auto, using(crate::proofs::Claims::control_rules))]
fn is_claimed(channel: &Channel) -> bool
    ensures { result ≡ channel.now.regs.control.claim }
{
    control(channel) & CLAIM == 1
}

/// Writes a register of channel c.
fn write(channels: &mut Vec<Channel>, c: ChanNo, off: u16, width: u8, value: u64)
    requires { c.0 < length channels.old.items }
    ensures { channels.new.items ≡ slice_set channels.old.items c.0 (channel_write (slice_index_or channels.old.items c.0 new_channel) off width value) }
{
    let channel = &mut channels[usize::from(c.0)];
    let _ = channel.write(off, width, value);
}

/// Returns the hart to which a channel is granted after an access of hart h, by the claim bit before and after.
fn grantee_after(old: Option<HartNo>, was: bool, is: bool, h: HartNo) -> Option<HartNo>
    ensures { result ≡ grantee_after old was is h.0 }
{
    match (was, is) {
        (_, false) => None,
        (true, true) => old,
        (false, true) => Some(h),
    }
}

/// Performs a store of hart h to a register of channel c. The channel is granted to h where the store sets the claim
/// bit, and to nobody where the bit is clear after it.
pub(crate) fn store(
    channels: &mut Vec<Channel>,
    grantees: &mut [Option<HartNo>; 4],
    h: HartNo,
    c: ChanNo,
    off: u16,
    width: u8,
    value: u64,
)
    requires channel { c.0 < length channels.old.items }
    requires grant { c.0 < length grantees.old }
    ensures channels { channels.new.items ≡ slice_set channels.old.items c.0 (channel_write (slice_index_or channels.old.items c.0 new_channel) off width value) }
    ensures grantees { grantees.new ≡ slice_set grantees.old c.0 (grantee_after (slice_index_or grantees.old c.0 None) (is_claimed (slice_index_or channels.old.items c.0 new_channel))
        (is_claimed (channel_write (slice_index_or channels.old.items c.0 new_channel) off width value)) h.0) }
{
    let chan = usize::from(c.0);
    let was = is_claimed(&channels[chan]);
    write(channels, c, off, width, value);
    let is = is_claimed(&channels[chan]);
    grantees[chan] = grantee_after(grantees[chan], was, is, h);
}

/// Claims channel c, whose claim bit is clear: writes to Control its own value with the bit set.
pub(crate) fn claim(channels: &mut Vec<Channel>, c: ChanNo)
    requires channel { c.0 < length channels.old.items }
    requires free { (slice_index_or channels.old.items c.0 new_channel).regs.control.claim ≡ false }
    ensures { channels.new.items ≡ slice_set channels.old.items c.0 (record {
      regs = claimed (slice_index_or channels.old.items c.0 new_channel).regs;
      fifo = (slice_index_or channels.old.items c.0 new_channel).fifo;
    }) }
{
    let channel = &channels[usize::from(c.0)];
    let value = control(channel) | CLAIM;
    write(channels, c, CONTROL, 4, u64::from(value));
}

/// Makes one read of channel c.
pub(crate) fn read_step(channels: &mut Vec<Channel>, c: ChanNo, ram: &Ram) -> ChanStep
    requires { c.0 < length channels.old.items }
    ensures step { result ≡ read_step (slice_index_or channels.old.items c.0 new_channel) ram.now }
    ensures state { channels.new.items ≡ slice_set channels.old.items c.0 (read_next (slice_index_or channels.old.items c.0 new_channel) (read_step (slice_index_or channels.old.items c.0 new_channel) ram.now)) }
{
    let channel = &mut channels[usize::from(c.0)];
    channel.read_step(ram)
}

/// Makes one write of channel c.
pub(crate) fn write_step(channels: &mut Vec<Channel>, c: ChanNo, ram: &mut Ram) -> ChanStep
    requires { c.0 < length channels.old.items }
    ensures step { result ≡ write_step (slice_index_or channels.old.items c.0 new_channel) (length ram.old) }
    ensures state { channels.new.items ≡ slice_set channels.old.items c.0 (write_next (slice_index_or channels.old.items c.0 new_channel) (write_step (slice_index_or channels.old.items c.0 new_channel) (length ram.old))) }
    ensures memory { ram.new ≡ ram_after ram.old (write_step (slice_index_or channels.old.items c.0 new_channel) (length ram.old)) }
    ensures size { length ram.new ≡ length ram.old }
{
    let channel = &mut channels[usize::from(c.0)];
    channel.write_step(ram)
}
