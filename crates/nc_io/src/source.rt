//! Sources: what bytes are read from.

ghost use Rattle.std.specs.Prelude.{◌≡◌, ℕ, List, Bool, length, Option};
ghost use Rattle.std.specs.Io.{ReadsAtMost};
ghost use Rattle.std.specs.Io.KnownBytes.{ReadConsumes};
ghost use Rattle.nc_io.specs.Causes.{HasCause};
ghost use Rattle.nc_io.specs.Ends.{Tells};

/// The error of a read that failed. It took none of the bytes that are left.
#[derive(Clone, Copy, Debug, PartialEq, Eq)]
pub struct Failed;

/// A source of bytes.
pub trait Source {
    /// The bytes that are left, where they are known.
    ghost left: { Self → Option (List ℕ) };
    /// Whether a read has marked its end.
    ghost ended: { Self → Bool };
    /// How often it has failed, at most 2^64 - 1. The count never falls.
    ghost faults: { Self → ℕ };

    /// Fills a prefix of the buffer with the next bytes and returns its length. A length of 0 for a buffer that is not
    /// empty marks the end of the source.
    ///
    /// # Errors
    ///
    /// `Failed` only where the count of faults rose in this call or stands at its limit. Then none of the bytes that
    /// are left was taken.
    fn read(&mut self, buf: &mut [u8]) -> Result<usize, Failed>
        ensures bound { ReadsAtMost result buf.new }
        ensures bytes { ReadConsumes (left self.old) (left self.new) result buf.new }
        ensures end { Tells (ended self.old) (ended self.new) (length buf.old) result }
        ensures cause { HasCause (faults self.old) (faults self.new) result };
}
