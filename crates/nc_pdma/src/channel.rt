//! A channel and its two steps.

ghost use Rattle.std.specs.Prelude.{◌≡◌, ◌+◌, ◌≤◌, ℕ, ◌++◌, drop, length, take};
ghost use Rattle.arrayvec.specs.ArrayVec.{array_vec_len};
ghost use Rattle.nc_pdma_regs.specs.Registers.{read_of};
ghost use Rattle.nc_pdma_regs.specs.Table.{known_at};
ghost use Rattle.nc_pdma.specs.Channel.{IsChannel, channel_failed, channel_write, new_channel, to_read};
ghost use Rattle.nc_pdma.specs.Bus.{place_of};
ghost use Rattle.nc_pdma.specs.Steps.{may_read, may_write, ram_after, read_len, read_next, read_step, write_len, write_next, write_step};

use arrayvec::ArrayVec;
use nc_mem::Ram;
use nc_num::{Bytes, Span};
use nc_pdma_regs::{BadMmio, Regs};
use std::marker::Model;

/// The bus address of RAM's first byte.
const RAM_BASE: u64 = 0x8000_0000;

/// The result of a step of a channel.
#[derive(Clone, Copy, Debug, PartialEq, Eq)]
pub enum ChanStep {
    /// The step is disabled, and nothing has changed.
    Idle,
    /// These bytes of RAM were read, or written.
    Moved {
        /// The place of the bytes in RAM.
        span: Span,
        /// The bytes, at most 64.
        bytes: Bytes,
        /// Whether a write left no byte to write; false for a read.
        done: bool,
    },
    /// The bytes are not all in RAM, and the transfer has ended.
    Error {
        /// The bus address of the first of them.
        bus: u64,
        /// How many bytes they are.
        len: u32,
    },
}

/// A channel of the engine. Contracts see its registers, and the bytes that it has read and not yet written.
#[derive(Debug, Drop)]
pub struct Channel {
    regs: Regs,
    fifo: ArrayVec<u8, 64>,
}

impl Model for Channel {
    ghost use Rattle.nc_pdma.specs.Channel.{ChannelState, IsChannel};

    ghost Value = { ChannelState };

    ghost view = { λ c. record { regs = c.regs; fifo = c.fifo.items } };

    ghost invariant = { λ c. IsChannel (record { regs = c.regs; fifo = c.fifo.items }) };
}

/// Returns the place in RAM of the first of `len` bytes at a bus address, or None where they are not all in RAM.
fn place_on_bus(ram: u32, bus: u64, len: u32) -> Option<u32>
    ensures { result ≡ place_of ram bus len }
{
    let end = bus.saturating_add(u64::from(len));
    if RAM_BASE <= bus && end <= RAM_BASE + u64::from(ram) {
        Some((bus - RAM_BASE) as u32)
    } else {
        None
    }
}

/// Appends bytes to the FIFO, which has room for them.
fn put_in(fifo: &mut ArrayVec<u8, 64>, bytes: &[u8])
    requires { array_vec_len fifo.old + length bytes.now ≤ 64 }
    ensures { fifo.new.items ≡ fifo.old.items ++ bytes.now }
{
    match fifo.try_extend_from_slice(bytes) {
        Ok(()) => {}
        Err(_) => unreachable!(),
    }
}

/// Removes the first `n` bytes from the FIFO, and returns them.
fn take_out(fifo: &mut ArrayVec<u8, 64>, n: usize) -> Bytes
    requires { n ≤ array_vec_len fifo.old }
    ensures bytes { result ≡ take n fifo.old.items }
    ensures len { length result ≡ n }
    ensures rest { fifo.new.items ≡ drop n fifo.old.items }
{
    let bytes = fifo.as_slice();
    let taken = Bytes::of(&bytes[..n]);
    let rest = Bytes::of(&bytes[n..]);
    fifo.clear();
    put_in(fifo, rest.as_slice());
    taken
}

impl Channel {
    /// Makes a channel that nobody has claimed: its registers are 0, and its FIFO is empty.
    pub fn new() -> Channel
        ensures { result ≡ new_channel }
    {
        Channel {
            regs: Regs::new(),
            fifo: ArrayVec::new(),
        }
    }

    /// Returns the value of the register of `width` bytes at offset `off`, in bytes.
    ///
    /// # Errors
    ///
    /// `BadMmio` exactly where no such register exists.
    pub fn read(&self, off: u16, width: u8) -> Result<u64, BadMmio>
        ensures value { result ≡ read_of self.now.regs off width }
        ensures sound { IsChannel self.now }
    {
        self.regs.read(off, width)
    }

    /// Writes `value` to the register of `width` bytes at offset `off`, in bytes. A start and a stop empty the FIFO.
    ///
    /// # Errors
    ///
    /// `BadMmio` exactly where no such register exists; then the channel is unchanged.
    pub fn write(&mut self, off: u16, width: u8, value: u64) -> Result<(), BadMmio>
        ensures answer { result ≡ known_at off width }
        ensures state { self.new ≡ channel_write self.old off width value }
    {
        let answer = self.regs.write(off, width, value);
        // the FIFO holds bytes of the transfer that runs, and no other
        if !self.regs.is_running() {
            self.fifo.clear();
        }
        answer
    }

    /// Moves the bytes of one read from RAM at ExecSource into the FIFO: those up to the next multiple of the read
    /// size, as far as they are left to read and the FIFO has room for them.
    ///
    /// Returns `Idle`, with nothing changed, where no transfer runs, nothing is left to read, or the FIFO is full; with
    /// the order bit also where the FIFO has a byte. Returns `Error` where the bytes are not all in RAM; then the
    /// transfer has ended, and the FIFO is empty.
    pub fn read_step(&mut self, ram: &Ram) -> ChanStep
        ensures step { result ≡ read_step self.old ram.now }
        ensures state { self.new ≡ read_next self.old (read_step self.old ram.now) }
    {
        if !self.may_read() {
            return ChanStep::Idle;
        }
        let len = self.read_len();
        let bus = self.regs.exec().source;
        let Some(at) = place_on_bus(ram.len(), bus, len) else {
            self.fail();
            return ChanStep::Error { bus, len };
        };
        let span = Span { at, len };
        let bytes = ram.read(span);
        put_in(&mut self.fifo, bytes.as_slice());
        self.regs.read_on(u64::from(len));
        ChanStep::Moved {
            span,
            bytes,
            done: false,
        }
    }

    /// Moves the bytes of one write, the first of the FIFO, to RAM at ExecDestination: those up to the next multiple of
    /// the write size, as far as the FIFO has them.
    ///
    /// Returns `Idle`, with nothing changed, where no transfer runs or the FIFO is empty. Returns `Error` where the
    /// bytes would not all be in RAM; then RAM is unchanged, the transfer has ended, and the FIFO is empty.
    pub fn write_step(&mut self, ram: &mut Ram) -> ChanStep
        ensures step { result ≡ write_step self.old (length ram.old) }
        ensures state { self.new ≡ write_next self.old (write_step self.old (length ram.old)) }
        ensures memory { ram.new ≡ ram_after ram.old (write_step self.old (length ram.old)) }
        ensures size { length ram.new ≡ length ram.old }
    {
        if !self.may_write() {
            return ChanStep::Idle;
        }
        let len = self.write_len();
        let bus = self.regs.exec().destination;
        let Some(at) = place_on_bus(ram.len(), bus, len) else {
            self.fail();
            return ChanStep::Error { bus, len };
        };
        let span = Span { at, len };
        let bytes = take_out(&mut self.fifo, len as usize);
        ram.write(span, bytes.as_slice());
        let done = self.regs.write_on(u64::from(len));
        ChanStep::Moved { span, bytes, done }
    }

    /// Returns the number of bytes that are left to read.
    fn to_read(&self) -> u64
        ensures { result ≡ to_read self.now }
    {
        self.regs.exec().bytes - self.fifo.len() as u64
    }

    /// Returns whether a read is enabled.
    fn may_read(&self) -> bool
        ensures { result ≡ may_read self.now }
    {
        self.regs.is_running()
            && self.to_read() > 0
            && self.fifo.len() < 64
            && !(self.regs.exec().is_ordered() && !self.fifo.is_empty())
    }

    /// Returns the number of bytes that a read takes.
    fn read_len(&self) -> u32
        ensures { result ≡ read_len self.now }
    {
        let exec = self.regs.exec();
        let size = exec.read_size();
        let room = 64 - self.fifo.len() as u64;
        (size - exec.source % size).min(self.to_read()).min(room) as u32
    }

    /// Returns whether a write is enabled.
    fn may_write(&self) -> bool
        ensures { result ≡ may_write self.now }
    {
        self.regs.is_running() && !self.fifo.is_empty()
    }

    /// Returns the number of bytes that a write moves.
    fn write_len(&self) -> u32
        ensures { result ≡ write_len self.now }
    {
        let exec = self.regs.exec();
        let size = exec.write_size();
        (size - exec.destination % size).min(self.fifo.len() as u64) as u32
    }

    /// Ends the transfer with an error, and empties the FIFO.
    fn fail(&mut self)
        ensures { self.new ≡ channel_failed self.old }
    {
        self.regs.fail();
        self.fifo.clear();
    }
}
