//! The register file of one channel.

ghost use Rattle.std.specs.Prelude.{◌≡◌, ◌+◌, ◌≤◌, ◌<◌, ◌^◌, ◌==◌, ◌-◌, Option, Some, None, length, IfOk, MatchOption};
ghost use Rattle.byteorder.specs.Endian.{little_number};
ghost use Rattle.nc_pdma_regs.specs.Registers.{no_registers, read_into, read_of, value_of};
ghost use Rattle.nc_pdma_regs.specs.Table.{known_at, width_of};
ghost use Rattle.nc_pdma_regs.specs.Writes.{control_write, low, next_written, write_of, written};
ghost use Rattle.nc_pdma_regs.specs.Moves.{bytes_read, failed, finished, written_on};
ghost use Rattle.nc_pdma_regs.specs.Laws.{IsClaimByControl, RunsAreClaimed};

use crate::config::{Transfer, config_of};
use crate::control::Control;
use crate::table::{BadMmio, Register, find_register};
use byteorder::{ByteOrder, LittleEndian};
use std::marker::Model;

/// The registers of a channel. Contracts see the flags of Control, and the registers of Next and of Exec.
#[derive(Debug, Drop)]
pub struct Regs {
    control: Control,
    next: Transfer,
    exec: Transfer,
}

impl Model for Regs {
    ghost use Rattle.std.specs.Prelude.{◌≡◌};
    ghost use Rattle.nc_pdma_regs.specs.Registers.{Registers};
    ghost use Rattle.nc_pdma_regs.specs.Control.{bits_of, number_of};

    ghost Value = { Registers };

    ghost view = { λ r. record { control = bits_of r.control.0; next = r.next; exec = r.exec } };

    // no other bit is set
    ghost invariant = { λ r. r.control.0 ≡ number_of (bits_of r.control.0) };
}

impl Regs {
    /// Makes the registers of a channel that nobody has claimed: all of them are 0.
    pub fn new() -> Regs
        ensures { result ≡ no_registers }
    {
        Regs {
            control: Control::of(false, false, false, false, false, false),
            next: Transfer::none(),
            exec: Transfer::none(),
        }
    }

    /// Returns the number that a register holds.
    fn value(&self, register: Register) -> u64
        ensures value { result ≡ value_of self.now register }
        ensures fits { width_of register ≡ 4 → result < 2 ^ 32 }
    {
        match register {
            Register::Control => u64::from(self.control.0),
            Register::NextConfig => u64::from(self.next.config),
            Register::NextBytes => self.next.bytes,
            Register::NextDestination => self.next.destination,
            Register::NextSource => self.next.source,
            Register::ExecConfig => u64::from(self.exec.config),
            Register::ExecBytes => self.exec.bytes,
            Register::ExecDestination => self.exec.destination,
            Register::ExecSource => self.exec.source,
        }
    }

    /// Returns the value of the register of `width` bytes at offset `off`, in bytes.
    ///
    /// # Errors
    ///
    /// `BadMmio` exactly where no such register exists.
    pub fn read(&self, off: u16, width: u8) -> Result<u64, BadMmio>
        ensures { result ≡ read_of self.now off width }
    {
        match find_register(off, width) {
            Some(register) => Ok(self.value(register)),
            None => Err(BadMmio { off, width }),
        }
    }

    /// Writes `value` to the register of `width` bytes at offset `off`, in bytes. A register of 4 bytes takes the low
    /// 32 bits of the value. A write to Next is ignored while the channel is not claimed; a write to Exec is always
    /// ignored.
    ///
    /// # Errors
    ///
    /// `BadMmio` exactly where no such register exists; then the registers are unchanged.
    pub fn write(&mut self, off: u16, width: u8, value: u64) -> Result<(), BadMmio>
        ensures answer { result ≡ known_at off width }
        ensures registers { self.new ≡ write_of self.old off width value }
    {
        match find_register(off, width) {
            Some(register) => {
                self.write_register(register, value);
                Ok(())
            }
            None => Err(BadMmio { off, width }),
        }
    }

    /// Reads the register at offset `off`, in bytes, into the slice, lowest byte first. The slice's length, at most 8,
    /// is the width of the access.
    ///
    /// # Errors
    ///
    /// `BadMmio` exactly where no register of this width exists there; then the slice is unchanged.
    #[tactic(auto, using(crate::proofs::Fits::register_fits))]
    pub fn read_bytes(&self, off: u16, out: &mut [u8]) -> Result<(), BadMmio>
        requires { length out.old ≤ 8 }
        ensures answer { result ≡ known_at off (length out.old) }
        ensures bytes { out.new ≡ read_into (read_of self.now off (length out.old)) out.old }
    {
        let width = out.len();
        match find_register(off, width as u8) {
            Some(register) => {
                LittleEndian::write_uint(out, self.value(register), width);
                Ok(())
            }
            None => Err(BadMmio {
                off,
                width: width as u8,
            }),
        }
    }

    /// Writes the slice, lowest byte first, to the register at offset `off`, in bytes. The slice's length, at most 8,
    /// is the width of the access.
    ///
    /// # Errors
    ///
    /// `BadMmio` exactly where no register of this width exists there; then the registers are unchanged.
    pub fn write_bytes(&mut self, off: u16, bytes: &[u8]) -> Result<(), BadMmio>
        requires { length bytes.now ≤ 8 }
        ensures answer { result ≡ known_at off (length bytes.now) }
        ensures registers { self.new ≡ write_of self.old off (length bytes.now) (little_number (length bytes.now) bytes.now) }
    {
        let width = bytes.len();
        match find_register(off, width as u8) {
            Some(register) => {
                let value = LittleEndian::read_uint(bytes, width);
                self.write_register(register, value);
                Ok(())
            }
            None => Err(BadMmio {
                off,
                width: width as u8,
            }),
        }
    }

    /// Returns whether a transfer runs.
    pub fn is_running(&self) -> bool
        ensures { result ≡ self.now.control.run }
    {
        self.control.run()
    }

    /// Returns the Exec registers: those of the transfer that runs, or that ran last.
    pub fn exec(&self) -> Transfer
        ensures { result ≡ self.now.exec }
    {
        self.exec
    }

    /// Ends the transfer with an error: run is cleared, and error is set.
    pub fn fail(&mut self)
        ensures { self.new ≡ failed self.old }
    {
        self.control = self.control.failed();
    }

    /// Advances ExecSource past the `n` bytes that the transfer has read.
    pub fn read_on(&mut self, n: u64)
        requires { self.old.exec.source + n < 2 ^ 64 }
        ensures { self.new ≡ bytes_read self.old n }
    {
        self.exec.source += n;
    }

    /// Advances the Exec registers past the `n` bytes that the transfer has written, at most those that are left, and
    /// returns whether none is left. Where none is left, the transfer is done, and starts again or ends.
    #[tactic(auto, unfolding(crate::specs::Moves::written_on))]
    pub fn write_on(&mut self, n: u64) -> bool
        requires left { n ≤ self.old.exec.bytes }
        requires end { self.old.exec.destination + n < 2 ^ 64 }
        ensures done { result ≡ (self.old.exec.bytes - n == 0) }
        ensures registers { self.new ≡ written_on self.old n }
    {
        self.exec.destination += n;
        self.exec.bytes -= n;
        let is_done = self.exec.bytes == 0;
        if is_done {
            self.finish();
        }
        is_done
    }

    fn finish(&mut self)
        ensures { self.new ≡ finished self.old }
    {
        if self.exec.repeats() && self.next.bytes != 0 {
            self.control = self.control.finished(true);
            self.exec = self.next;
        } else {
            self.control = self.control.finished(false);
        }
    }

    fn write_register(&mut self, register: Register, value: u64)
        ensures { self.new ≡ written self.old register value }
    {
        match register {
            Register::Control => self.write_control(Control::written(value)),
            _ if !self.control.claim() => {}
            Register::NextConfig => self.next.config = config_of(value & 0xffff_ffff),
            Register::NextBytes => self.next.bytes = value,
            Register::NextDestination => self.next.destination = value,
            Register::NextSource => self.next.source = value,
            Register::ExecConfig
            | Register::ExecBytes
            | Register::ExecDestination
            | Register::ExecSource => {}
        }
    }

    #[tactic(auto, unfolding(crate::specs::Writes::control_write))]
    fn write_control(&mut self, written: Control)
        ensures { self.new ≡ control_write self.old written.0 }
    {
        let was = self.control;
        self.control = was.after(written, self.next.bytes == 0);
        if was.starts(written) {
            self.exec = self.next;
        }
        if was.claims(written) {
            self.next = Transfer::none();
        }
    }
}

/// Proves that, on a channel that is neither claimed nor running, a write to Control of its own value with bit 0 set is
/// the claim: it sets the claim bit, clears the Next registers, and changes nothing else.
#[tactic(auto, using(crate::proofs::Claims::claim_by_control))]
pub fn claim_by_control()
    ensures { IsClaimByControl }
{}

/// Proves that a channel runs only while it is claimed: it is so at the start, and no access, move or error changes
/// that.
#[tactic(auto, using(crate::proofs::Claims::stays_claimed))]
pub fn runs_are_claimed()
    ensures { RunsAreClaimed }
{}
