//! Sinks: what bytes are written to.

ghost use Rattle.std.specs.Prelude.{◌≡◌, ◌<◌, ◌≤◌, ℕ, List, length, Option, OnOk, OnErr, IfOk};
ghost use Rattle.std.specs.Io.{WritesAtMost};
ghost use Rattle.std.specs.Io.KnownBytes.{Appends, WriteAppends};
ghost use Rattle.nc_io.specs.Causes.{Rose};
ghost use Rattle.nc_io.specs.Streams.{GrowsByPrefix};

/// The reason why a sink took no bytes.
#[derive(Clone, Copy, Debug, PartialEq, Eq)]
pub enum Stop {
    /// The write failed, and the sink's count of faults rose or stands at its limit.
    Failed,
    /// Memory ran out.
    NoMemory,
}

/// A sink of bytes.
pub trait Sink {
    /// The bytes that it holds, where they are known.
    ghost held: { Self → Option (List ℕ) };
    /// How often it has failed, at most 2^64 - 1. The count never falls.
    ghost faults: { Self → ℕ };

    /// Takes a prefix of the piece and returns its length in bytes, which is not 0 for a piece that is not empty.
    ///
    /// # Errors
    ///
    /// `Stop`, and then no byte was taken. `Failed` comes only where the count of faults rose in this call or stands at
    /// its limit.
    fn write(&mut self, piece: &[u8]) -> Result<usize, Stop>
        ensures bound { WritesAtMost result piece.now }
        ensures bytes { WriteAppends (held self.old) (held self.new) result piece.now }
        ensures some { IfOk result (λ n. 0 < length piece.now → 0 < n) }
        ensures later { faults self.old ≤ faults self.new }
        ensures cause { result ≡ Err Stop.Failed → Rose (faults self.old) (faults self.new) };
}

/// Writes the whole piece.
///
/// # Errors
///
/// The `Stop` of the sink, and then a prefix of the piece is written. `Failed` comes only where the sink's count of
/// faults rose in this call or stands at its limit.
pub fn write_all<K: Sink>(out: &mut K, piece: &[u8]) -> Result<(), Stop>
    ensures ok { OnOk result (Appends (K.held out.old) (K.held out.new) piece.now) }
    ensures stop { OnErr result (GrowsByPrefix (K.held out.old) (K.held out.new) piece.now) }
    ensures later { K.faults out.old ≤ K.faults out.new }
    ensures cause { result ≡ Err Stop.Failed → Rose (K.faults out.old) (K.faults out.new) }
{
    let mut rest = piece;
    while !rest.is_empty() {
        let n = out.write(rest)?;
        rest = &rest[n..];
    }
    Ok(())
}
