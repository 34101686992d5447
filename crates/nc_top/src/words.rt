//! The words of the command line.

ghost use Rattle.std.specs.Prelude.{◌≡◌, map, string_bytes};
ghost use Rattle.nc_top.specs.Due.{command_of, is_migrate, is_pool, is_run, seed_in};

use nc_values::number_in;

/// A command of the program.
#[derive(Clone, Copy, Debug, PartialEq, Eq)]
pub enum Command {
    /// The command that writes a scenario's report.
    Run,
    /// The command that writes a scenario moved to version 2.
    Migrate,
    /// The command that writes the lines of a pool of small pieces.
    Pool,
    /// The command that writes the line that sums up the run of this number's scenario.
    Gen(u64),
}

/// Returns the command that the words name, or None where they name none.
pub fn command_of(words: &Vec<String>) -> Option<Command>
    ensures { result ≡ command_of (map string_bytes words.now.items) }
{
    if is_run(words) {
        return Some(Command::Run);
    }
    if is_migrate(words) {
        return Some(Command::Migrate);
    }
    if is_pool(words) {
        return Some(Command::Pool);
    }
    match seed_in(words) {
        Some(n) => Some(Command::Gen(n)),
        None => None,
    }
}

/// Returns whether the words are `run`.
pub fn is_run(words: &Vec<String>) -> bool
    ensures { result ≡ is_run (map string_bytes words.now.items) }
{
    words.len() == 1 && words[0].as_str() == "run"
}

/// Returns whether the words are `migrate`.
fn is_migrate(words: &Vec<String>) -> bool
    ensures { result ≡ is_migrate (map string_bytes words.now.items) }
{
    words.len() == 1 && words[0].as_str() == "migrate"
}

/// Returns whether the words are `pool`.
fn is_pool(words: &Vec<String>) -> bool
    ensures { result ≡ is_pool (map string_bytes words.now.items) }
{
    words.len() == 1 && words[0].as_str() == "pool"
}

/// Returns the number N of the words `gen N`, which is below 2^64, in decimal digits without leading zeros; None for
/// other words.
fn seed_in(words: &Vec<String>) -> Option<u64>
    ensures { result ≡ seed_in (map string_bytes words.now.items) }
{
    if words.len() == 2 && words[0].as_str() == "gen" {
        return number_in(words[1].as_bytes());
    }
    None
}
