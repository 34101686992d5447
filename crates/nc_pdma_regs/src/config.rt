//! The four registers of a transfer: those of Next, or those of Exec.

ghost use Rattle.std.specs.Prelude.{◌≡◌, ◌^◌, ◌<◌, min};
ghost use Rattle.nc_pdma_regs.specs.Config.{config_kept, no_transfer, order_of, read_size, repeat_of, write_size};

/// The registers of a transfer. Next holds those of the transfer to be started, and Exec those of the one that runs.
#[derive(Clone, Copy, Debug, PartialEq, Eq)]
pub struct Transfer {
    /// Config: the repeat bit 2, the order bit 3, the write size in bits 27:24 and the read size in bits 31:28.
    pub config: u32,
    /// Bytes: how many bytes are to be written; in Exec, how many are left.
    pub bytes: u64,
    /// Destination: the bus address that is written next.
    pub destination: u64,
    /// Source: the bus address that is read next.
    pub source: u64,
}

/// Returns what Config keeps of a value that is written: bits 2 and 3, and bits 31:24. This project's own.
pub fn config_of(value: u64) -> u32
    ensures { result ≡ config_kept value }
{
    ((value & 0xc) + (value & 0xff00_0000)) as u32
}

/// Returns a size in bytes: two to the power of `power`, and at most 64.
#[tactic(auto, using(crate::proofs::PowersOfTwo::shifted, crate::proofs::PowersOfTwo::some))]
fn size_of(power: u32) -> u64
    ensures value { result ≡ 2 ^ min power 6 }
    ensures some { 0 < result }
{
    1 << power.min(6)
}

impl Transfer {
    /// Makes the registers of no transfer: all four are 0.
    pub fn none() -> Transfer
        ensures { result ≡ no_transfer }
    {
        Transfer {
            config: 0,
            bytes: 0,
            destination: 0,
            source: 0,
        }
    }

    /// Returns the repeat bit: whether a transfer that is done starts again.
    pub fn repeats(&self) -> bool
        ensures { result ≡ repeat_of self.now.config }
    {
        self.config >> 2 & 1 == 1
    }

    /// Returns the order bit: whether a read waits until all bytes read before are written.
    pub fn is_ordered(&self) -> bool
        ensures { result ≡ order_of self.now.config }
    {
        self.config >> 3 & 1 == 1
    }

    #[tactic(auto, unfolding(crate::specs::Config::read_size))]
    /// Returns the size of a read, a power of two from 1 to 64 bytes. No read crosses a multiple of it.
    pub fn read_size(&self) -> u64
        ensures value { result ≡ read_size self.now.config }
        ensures some { 0 < result }
    {
        size_of(self.config >> 28)
    }

    #[tactic(auto, unfolding(crate::specs::Config::write_size))]
    /// Returns the size of a write, a power of two from 1 to 64 bytes. No write crosses a multiple of it.
    pub fn write_size(&self) -> u64
        ensures value { result ≡ write_size self.now.config }
        ensures some { 0 < result }
    {
        size_of(self.config >> 24 & 0xf)
    }
}
