//! The refusals of bytes that are no scenario.

ghost use Rattle.std.specs.Prelude.{◌≡◌, IfOk, [], string_bytes};
ghost use Rattle.nc_values.specs.Paths.{under, at_position, told};
ghost use Rattle.nc_values.specs.declared.refused.ScenFault.TheVariants.{NoMemory};

use std::alloc::{AllocError, AllocFailed, Global};
use std::marker::Model;

/// A path into a scenario: keys and positions, joined by points. The path of the whole is empty. Contracts see its
/// bytes.
#[derive(Debug, Drop)]
pub struct Path {
    text: String,
}

impl Model for Path {
    ghost use Rattle.std.specs.Prelude.{ℕ, List, string_bytes};

    ghost Value = { List ℕ };

    ghost view = { λ p. string_bytes p.text };
}

impl Path {
    /// Makes the path of this text.
    pub fn new(text: String) -> Path
        ensures { result ≡ string_bytes text }
    {
        Path { text }
    }

    /// Makes the empty path, that of the whole, under which keys stand alone.
    pub fn root(alloc: Global) -> Path
        ensures { result ≡ [] }
    {
        Path {
            text: String::new(alloc),
        }
    }

    /// Makes the path of a key of the whole.
    ///
    /// # Errors
    ///
    /// `AllocError` where memory runs out.
    pub fn of(alloc: Global, key: &str) -> Result<Path, AllocError>
        ensures { IfOk result (λ p. p ≡ key.now) }
    {
        Ok(Path {
            text: String::from_str(alloc, key)?,
        })
    }

    /// Returns the path of a key under this path.
    ///
    /// # Errors
    ///
    /// `AllocError` where memory runs out.
    pub fn under(&self, alloc: Global, key: &str) -> Result<Path, AllocError>
        ensures { IfOk result (λ p. p ≡ under self.now key.now) }
    {
        let text = self.text.as_str();
        if text.is_empty() {
            return Path::of(alloc, key);
        }
        Ok(Path {
            text: format!(in alloc; "{text}.{key}")?,
        })
    }

    /// Returns the path of position `i`, counted from 0, under this path.
    ///
    /// # Errors
    ///
    /// `AllocError` where memory runs out.
    pub fn position(&self, alloc: Global, i: usize) -> Result<Path, AllocError>
        ensures { IfOk result (λ p. p ≡ at_position self.now i) }
    {
        let text = self.text.as_str();
        if text.is_empty() {
            return Ok(Path {
                text: format!(in alloc; "{i}")?,
            });
        }
        Ok(Path {
            text: format!(in alloc; "{text}.{i}")?,
        })
    }

    /// Returns this path as a refusal prints it: one point for the whole, and else unchanged.
    ///
    /// # Errors
    ///
    /// `AllocError` where memory runs out.
    pub fn told(&self, alloc: Global) -> Result<Path, AllocError>
        ensures { IfOk result (λ p. p ≡ told self.now) }
    {
        let text = self.text.as_str();
        if text.is_empty() {
            return Path::of(alloc, ".");
        }
        Path::of(alloc, text)
    }

    /// Returns the text of the path.
    pub fn as_str(&self) -> &str
        ensures { result.now ≡ self.now }
    {
        self.text.as_str()
    }
}

/// The first thing that is wrong with the bytes.
#[derive(Debug, Drop)]
pub enum Refused {
    /// More than 8,388,608 bytes.
    TooLong,
    /// The bytes have no reading as JSON of at most 127 levels.
    NotJson,
    /// The value at the path has the wrong shape, is missing, or has an unknown key.
    Shape(Path),
    /// Another version of the format than 1 and 2.
    Version(u64),
    /// The number or the length at the path is out of its limits.
    Limit(Path, u64),
    /// The two regions share a byte. They are counted from 0: the buffers in order, then the slots, then the pool.
    Overlap(u32, u32),
    /// The token of this index, counted from 0, is no token, or names what does not exist.
    Token(u32),
}

/// Why bytes give no scenario.
#[derive(Debug, Drop)]
pub enum ScenFault {
    /// The bytes are refused.
    Refused(Refused),
    /// Memory ran out.
    NoMemory,
}

impl From<AllocError> for ScenFault {
    ghost from_gives = { λ _ e. e ≡ NoMemory };

    fn from(_e: AllocError) -> ScenFault {
        ScenFault::NoMemory
    }
}

impl<T: Drop> From<AllocFailed<T>> for ScenFault {
    ghost from_gives = { λ _ e. e ≡ NoMemory };

    fn from(_e: AllocFailed<T>) -> ScenFault {
        ScenFault::NoMemory
    }
}
