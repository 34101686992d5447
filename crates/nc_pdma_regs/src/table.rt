//! The table of registers, by offset and width.

ghost use Rattle.std.specs.Prelude.{◌≡◌, IfSome};
ghost use Rattle.nc_pdma_regs.specs.Table.{register_at, width_of, known_at};

/// An access outside the table of registers.
#[derive(Clone, Copy, Debug, PartialEq, Eq)]
pub struct BadMmio {
    /// The offset from the channel's first register, in bytes.
    pub off: u16,
    /// The width of the access, in bytes.
    pub width: u8,
}

/// The offset of Control, in bytes; it is 4 bytes wide.
pub const CONTROL: u16 = 0x000;

/// A register of a channel.
#[derive(Clone, Copy, Debug, PartialEq, Eq)]
pub enum Register {
    /// 0x000, 4 bytes: claim, run, and the outcome of the last transfer.
    Control,
    /// 0x004, 4 bytes.
    NextConfig,
    /// 0x008, 8 bytes.
    NextBytes,
    /// 0x010, 8 bytes.
    NextDestination,
    /// 0x018, 8 bytes.
    NextSource,
    /// 0x104, 4 bytes, read only.
    ExecConfig,
    /// 0x108, 8 bytes, read only.
    ExecBytes,
    /// 0x110, 8 bytes, read only.
    ExecDestination,
    /// 0x118, 8 bytes, read only.
    ExecSource,
}

/// Returns the register of `width` bytes at offset `off`, in bytes, or None where no such register exists.
pub fn find_register(off: u16, width: u8) -> Option<Register>
    ensures value { result ≡ register_at off width }
    ensures width { IfSome result (λ r. width ≡ width_of r) }
{
    match (off, width) {
        (CONTROL, 4) => Some(Register::Control),
        (0x004, 4) => Some(Register::NextConfig),
        (0x008, 8) => Some(Register::NextBytes),
        (0x010, 8) => Some(Register::NextDestination),
        (0x018, 8) => Some(Register::NextSource),
        (0x104, 4) => Some(Register::ExecConfig),
        (0x108, 8) => Some(Register::ExecBytes),
        (0x110, 8) => Some(Register::ExecDestination),
        (0x118, 8) => Some(Register::ExecSource),
        _ => None,
    }
}

/// Tests that a register of `width` bytes exists at offset `off`, in bytes.
///
/// # Errors
///
/// `BadMmio` exactly where no such register exists.
pub fn known(off: u16, width: u8) -> Result<(), BadMmio>
    ensures { result ≡ known_at off width }
{
    match find_register(off, width) {
        Some(_) => Ok(()),
        None => Err(BadMmio { off, width }),
    }
}
