//! The Control register, a set of flags.

ghost use Rattle.std.specs.Prelude.{◌≡◌, ◌%◌, ◌^◌, true, false};
ghost use Rattle.nc_pdma_regs.specs.Control.{bit, bits_of, number_of};
ghost use Rattle.nc_pdma_regs.specs.Moves.{done_flags};
ghost use Rattle.nc_pdma_regs.specs.Writes.{claim_after, claims, control_after, starts};

use bitflags::{Flag, Flags, bitflag_items};

/// The value of Control: the claim, run, doneIE, errorIE, done and error bits. This project's own.
#[derive(Clone, Copy, PartialEq, Eq, Debug)]
pub struct Control(pub u32);

bitflag_items! {
    impl Control: u32 {
        const CLAIM = 0x1;
        const RUN = 0x2;
        const DONE_IE = 0x4000;
        const ERROR_IE = 0x8000;
        const DONE = 0x4000_0000;
        const ERROR = 0x8000_0000;
    }
}

impl Flags for Control {
    ghost use Rattle.std.specs.Prelude.{⊤, [], ◌∷◌, codes};

    type Bits = u32;

    ghost exact = { ⊤ };

    ghost table = { (codes "CLAIM", 0x1)
        ∷ (codes "RUN", 0x2)
        ∷ (codes "DONE_IE", 0x4000)
        ∷ (codes "ERROR_IE", 0x8000)
        ∷ (codes "DONE", 0x4000_0000)
        ∷ (codes "ERROR", 0x8000_0000)
        ∷ [] };

    ghost set_of = { λ c. c.0 };

    fn flags<'a>() -> &'a [Flag<Control>] {
        Control::FLAGS
    }

    fn bits(&self) -> u32 {
        self.0
    }

    fn from_bits_retain(bits: u32) -> Control {
        Control(bits)
    }
}

impl Control {
    /// Makes a Control of the low 32 bits of a value that is written.
    pub fn written(value: u64) -> Control
        ensures { result.0 ≡ value % 2 ^ 32 }
    {
        Control((value & 0xffff_ffff) as u32)
    }

    /// Makes a Control with these flags; its other bits are 0.
    pub fn of(
        claim: bool,
        run: bool,
        done_ie: bool,
        error_ie: bool,
        done: bool,
        error: bool,
    ) -> Control
        ensures bits { bits_of result.0
            ≡ record { claim = claim; run = run; done_ie = done_ie; error_ie = error_ie; done = done; error = error } }
        ensures others { result.0 ≡ number_of (bits_of result.0) }
    {
        let mut c = Control::empty();
        c.set(Control::CLAIM, claim);
        c.set(Control::RUN, run);
        c.set(Control::DONE_IE, done_ie);
        c.set(Control::ERROR_IE, error_ie);
        c.set(Control::DONE, done);
        c.set(Control::ERROR, error);
        c
    }

    /// Returns whether the channel is claimed: bit 0.
    pub fn claim(self) -> bool
        ensures { result ≡ bit self.0 0 }
    {
        self.contains(Control::CLAIM)
    }

    /// Returns whether a transfer runs: bit 1.
    pub fn run(self) -> bool
        ensures { result ≡ bit self.0 1 }
    {
        self.contains(Control::RUN)
    }

    /// Returns whether an interrupt is wanted when a transfer is done: bit 14. None is delivered.
    pub fn done_ie(self) -> bool
        ensures { result ≡ bit self.0 14 }
    {
        self.contains(Control::DONE_IE)
    }

    /// Returns whether an interrupt is wanted when a transfer meets an error: bit 15. None is delivered.
    pub fn error_ie(self) -> bool
        ensures { result ≡ bit self.0 15 }
    {
        self.contains(Control::ERROR_IE)
    }

    /// Returns whether a transfer was done: bit 30.
    pub fn done(self) -> bool
        ensures { result ≡ bit self.0 30 }
    {
        self.contains(Control::DONE)
    }

    /// Returns whether a transfer met an error: bit 31.
    pub fn error(self) -> bool
        ensures { result ≡ bit self.0 31 }
    {
        self.contains(Control::ERROR)
    }

    /// Returns the claim bit after a write: it stays while a transfer runs.
    fn claim_after(self, written: Control) -> bool
        ensures { result ≡ claim_after (bits_of self.0) written.0 }
    {
        if self.run() {
            self.claim()
        } else {
            written.claim()
        }
    }

    /// Returns whether a write of `written` to Control claims the channel.
    pub fn claims(self, written: Control) -> bool
        ensures { result ≡ claims (bits_of self.0) written.0 }
    {
        !self.claim() && self.claim_after(written)
    }

    /// Returns whether a write of `written` to Control starts the transfer that Next describes.
    pub fn starts(self, written: Control) -> bool
        ensures { result ≡ starts (bits_of self.0) written.0 }
    {
        !self.run() && written.run() && self.claim() && self.claim_after(written)
    }

    /// Returns Control after a write of `written`; `is_empty` says whether Next describes a transfer of no bytes, which
    /// is done as it starts.
    pub fn after(self, written: Control, is_empty: bool) -> Control
        ensures bits { bits_of result.0 ≡ control_after (bits_of self.0) is_empty written.0 }
        ensures others { result.0 ≡ number_of (bits_of result.0) }
    {
        let starts = self.starts(written);
        Control::of(
            self.claim_after(written),
            if starts {
                !is_empty
            } else {
                self.run() && written.run()
            },
            written.done_ie(),
            written.error_ie(),
            self.done() && written.done() || starts && is_empty,
            self.error() && written.error(),
        )
    }

    /// Returns Control once the transfer has met an error: run is cleared, and error is set.
    pub fn failed(self) -> Control
        ensures bits { bits_of result.0 ≡ record (bits_of self.0) { run = false; error = true } }
        ensures others { result.0 ≡ number_of (bits_of result.0) }
    {
        Control::of(
            self.claim(),
            false,
            self.done_ie(),
            self.error_ie(),
            self.done(),
            true,
        )
    }

    /// Returns Control once the transfer is done: done is set, and run stays only where `again` is true, as the
    /// transfer starts again.
    pub fn finished(self, again: bool) -> Control
        ensures bits { bits_of result.0 ≡ done_flags again (bits_of self.0) }
        ensures others { result.0 ≡ number_of (bits_of result.0) }
    {
        Control::of(
            self.claim(),
            again && self.run(),
            self.done_ie(),
            self.error_ie(),
            true,
            self.error(),
        )
    }
}
