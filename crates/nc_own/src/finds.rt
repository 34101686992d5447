//! Look-ups in lists of grants, and what a grant allows.

ghost use Rattle.std.specs.Prelude.{◌≡◌, ◌<◌, ◌≤◌, ◌+◌, ◌^◌, ◌&&◌, true, vec_len, vec_capacity};
ghost use Rattle.std.specs.List.{find};
ghost use Rattle.nc_num.specs.Places.{covers as span_covers};
ghost use Rattle.nc_model.specs.Grants.{without};
ghost use Rattle.nc_model.specs.Rights.{is_thread as thread_of, grant_of, served_by, has_device, is_device, buffer_place as place_of_buffer, cpu_may as may_by_cpu, device_may as may_by_device};

use nc_model::{Access, Grant, Owner};
use nc_num::{ChanNo, Dir, HartNo, MapId, Span};

/// Returns whether the place lies in the span.
fn covers(span: Span, at: u32) -> bool
    ensures { result ≡ span_covers span at }
{
    span.at <= at && at - span.at < span.len
}

/// Returns whether a byte of this owner is the hart's own.
pub fn is_thread(me: HartNo, owner: Owner) -> bool
    ensures { result ≡ thread_of me owner }
{
    match owner {
        Owner::Thread(hart) => hart == me,
        Owner::Passing(..)
        | Owner::Lending(_)
        | Owner::Device(_)
        | Owner::Returning(_)
        | Owner::Synced(_)
        | Owner::Pool => false,
    }
}

/// Returns the grant of a mapping, or None where it has none.
pub fn grant_with_id(grants: &[Grant], id: MapId) -> Option<Grant>
    ensures { result ≡ grant_of grants.now id }
{
    grants.iter().copied().find(|g| g.id == id)
}

/// Returns the first grant of the channel `c` whose device range contains the place, or None.
pub fn grant_for_channel(grants: &[Grant], c: ChanNo, at: u32) -> Option<Grant>
    ensures { result ≡ served_by grants.now c at }
{
    grants
        .iter()
        .copied()
        .find(|g| g.chan == c && covers(g.device, at))
}

/// Returns the first grant of any channel whose device range contains the place, or None.
pub fn grant_over(grants: &[Grant], at: u32) -> Option<Grant>
    ensures { result ≡ find (has_device at) grants.now }
{
    grants.iter().copied().find(|g| covers(g.device, at))
}

/// Returns the place of the buffer that a place of the grant's device range stands for.
pub fn buffer_place(g: Grant, at: u32) -> u32
    requires covers { span_covers g.device at ≡ true }
    requires lengths { g.buffer.len ≡ g.device.len }
    requires ends { g.buffer.at + g.buffer.len < 2 ^ 32 }
    ensures { result ≡ place_of_buffer g at }
{
    g.buffer.at + (at - g.device.at)
}

/// Returns whether the CPU may make an access to a mapping that is synced for it, by the direction of the mapping.
pub fn cpu_may(access: Access, dir: Dir) -> bool
    ensures { result ≡ may_by_cpu access dir }
{
    match access {
        Access::Read => true,
        Access::Write => dir != Dir::FromDev,
    }
}

/// Returns whether the device may make an access to a mapping that is its own, by the direction of the mapping.
pub fn device_may(access: Access, dir: Dir) -> bool
    ensures { result ≡ may_by_device access dir }
{
    match access {
        Access::Read => dir != Dir::FromDev,
        Access::Write => dir != Dir::ToDev,
    }
}

/// Returns whether a channel may use a byte of the buffer, which has this owner, through a grant.
pub fn grant_allows(g: Grant, access: Access, owner: Owner) -> bool
    ensures { result ≡ (is_device g.id owner && may_by_device access g.dir) }
{
    match owner {
        Owner::Device(m) => m == g.id && device_may(access, g.dir),
        _ => false,
    }
}

/// Removes the grants of a mapping, and leaves the others in order.
pub fn remove_with_id(grants: &mut Vec<Grant>, id: MapId)
    ensures grants { grants.new.items ≡ without grants.old.items id }
    ensures shorter { vec_len grants.new ≤ vec_len grants.old }
    ensures capacity { vec_capacity grants.new ≡ vec_capacity grants.old }
{
    grants.retain(|g| g.id != id);
}
