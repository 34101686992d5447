//! The threads of a scenario, and the name of a scenario.

ghost use Rattle.std.specs.Prelude.{◌≡◌, if◌then◌else◌};
ghost use Rattle.nc_scen.specs.declared.events.Event.TheVariants.{Issue, Drain};
ghost use Rattle.nc_turns.specs.Threads.{is_even};
ghost use Rattle.nc_turns.specs.Named.{no_scenario};

use nc_num::HartNo;
use nc_scen::Event;
use std::marker::Brand;

/// The name of one scenario, in contracts alone.
pub trait SceneName {
    ghost use Rattle.nc_scen.specs.declared.scenario.Scenario.{Scenario};

    ghost scene: { Scenario };
}

impl SceneName for Brand {
    ghost scene = { no_scenario };
}

/// A thread of a scenario. This project's own.
#[derive(Clone, Copy, Debug, PartialEq, Eq)]
pub enum Turner {
    /// The thread of a hart's driver, which also drains the hart's store queue.
    Driver(HartNo),
    /// The thread of the DMA channels.
    Channels,
    /// The thread of the caches.
    Caches,
}

/// Returns the next event of the driver of hart `h`, which has made `made` events and is at no search: an issue where
/// `made` is even, else a drain of the first entry of its queue.
pub fn driver_event(h: HartNo, made: u64) -> Event
    ensures { result ≡ (if is_even made then Issue h else Drain h 0) }
{
    if made % 2 == 0 {
        return Event::Issue(h);
    }
    Event::Drain(h, 0)
}
