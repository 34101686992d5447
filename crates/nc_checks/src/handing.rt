//! Buffers that are passed from hart to hart.

ghost use Rattle.std.specs.Prelude.{◌≡◌};
ghost use Rattle.nc_rules.specs.declared.steps.Turn.TheVariants as turns;
ghost use Rattle.nc_rules.specs.Handing as rules;
ghost use Rattle.nc_rules.specs.Refusals.{buffer_of};

use crate::setup::DriverConfig;
use nc_num::HartNo;
use nc_rules::{Act, Step, Turn};

impl DriverConfig {
    /// Returns the step that takes a buffer, which makes it the hart's own.
    pub(crate) fn take_step(&self, buf: u8) -> Step
        ensures { result ≡ rules.take_step self.now buf }
    {
        Step {
            act: Act::Take(buf),
            first: Turn::Stay,
            last: Turn::Own(self.buffer(buf)),
        }
    }

    /// The turn with which a buffer is on its way to a hart.
    pub(crate) fn pass(&self, buf: u8, to: HartNo) -> Turn
        ensures { result ≡ turns.Pass (buffer_of self.now buf) to }
    {
        Turn::Pass(self.buffer(buf), to)
    }
}
