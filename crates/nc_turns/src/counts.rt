//! The count of events that each thread has made.

ghost use Rattle.std.specs.Prelude.{◌≡◌, ◌+◌, ◌<◌, ◌^◌, [], true, if◌then◌else◌};
ghost use Rattle.nc_turns.specs.States.{count_at, AreCounts, IsCounted};
ghost use Rattle.nc_turns.specs.Threads.{belongs};

use crate::threads::Turner;
use nc_num::HartNo;
use nc_scen::Event;

/// The count of events of each thread.
#[derive(Clone, Copy, Debug)]
pub struct Counts {
    /// The counts of the drivers, by hart.
    pub drivers: [u64; 4],
    /// The count of the channels' thread.
    pub channels: u64,
    /// The count of the caches' thread.
    pub caches: u64,
}

impl Counts {
    /// Makes the counts of no events.
    pub fn none() -> Counts
        ensures { AreCounts result [] }
    {
        Counts {
            drivers: [0; 4],
            channels: 0,
            caches: 0,
        }
    }

    /// Returns the count of the events of thread `t`.
    pub fn of(&self, t: Turner) -> u64
        requires { IsCounted t }
        ensures { result ≡ count_at self.now t }
    {
        match t {
            Turner::Driver(h) => self.drivers[usize::from(h.0)],
            Turner::Channels => self.channels,
            Turner::Caches => self.caches,
        }
    }

    /// Counts event `e` for its thread. A try is of no thread.
    pub fn count(&mut self, e: Event)
        requires few { (t : Turner) → IsCounted t → belongs t e ≡ true → count_at self.old t + 1 < 2 ^ 64 }
        requires there { (h : HartNo) → belongs (Turner.Driver h) e ≡ true → h.0 < 4 }
        ensures { (t : Turner) → IsCounted t → count_at self.new t ≡ count_at self.old t + (if belongs t e then 1 else 0) }
    {
        match e {
            Event::Issue(h) | Event::Told(h, _) | Event::Drain(h, _) => {
                self.drivers[usize::from(h.0)] += 1;
            }
            Event::ChanRead(_) | Event::ChanWrite(_) => self.channels += 1,
            Event::Fill(_, _) | Event::Evict(_, _) => self.caches += 1,
            Event::Try(_) => {}
        }
    }
}
