//! The top call of `dmalive`: words, streams and statuses.

ghost use Rattle.std.specs.Prelude.{◌≡◌, ◌≢◌, ◌⊎◌, List, ℕ, map, string_bytes, false, true};
ghost use Rattle.std.specs.Io.KnownBytes.{Appends, Keeps};
ghost use Rattle.nc_io.specs.Causes.{Rose};
ghost use Rattle.nc_scen.specs.Reading.{reading};
ghost use Rattle.nc_top.specs.Due.{is_run, unknown_words, IsAnswer};
ghost use Rattle.nc_top.specs.Inputs.{HasRead, IsRunWhereRead, TakesFew};
ghost use Rattle.nc_live.specs.Due.{WroteFor, GrewFor, WrotePrefix};

use crate::gate::Gate;
use crate::live::live_run;
use nc_io::{Sink, Source, Stop};
use nc_report::refused;
use nc_scen::{ScenFault, read};
use nc_top::{Lost, is_run, put, read_input};
use std::alloc::Global;
use std::marker::Brand;
use std::sync::Wait;
use std::thread::Threads;

/// Answers an input: the history and the report of a scenario's run in threads, or the line of a refusal.
fn answer_to<R: Threads + Wait + Sync, K: Sink, G: Gate>(
    rt: &R,
    alloc: Global,
    bytes: &[u8],
    out: &mut K,
    gate: &G,
) -> u8
    ensures written { IsAnswer result → WroteFor (K.held out.old) (K.held out.new) (reading bytes.now) result }
    ensures sink { result ≡ 5 → Rose (K.faults out.old) (K.faults out.new) }
    ensures reads { result ≢ 4 }
    ensures read { IsAnswer result → IsRunWhereRead result bytes.now }
    ensures prefix { Keeps (K.held out.old) (K.held out.new) ⊎ GrewFor (K.held out.old) (K.held out.new) (reading bytes.now) }
{
    match read(alloc, bytes) {
        Ok(sc) => match live_run::<Brand, R, K, G>(rt, alloc, &sc, out, gate) {
            Ok(status) => status,
            Err(Stop::Failed) => 5,
            Err(Stop::NoMemory) => 6,
        },
        Err(ScenFault::Refused(r)) => match refused(alloc, &r) {
            Ok(text) => put(out, 3, &text),
            Err(_) => 6,
        },
        Err(ScenFault::NoMemory) => 6,
    }
}

/// Reads a scenario, for the words `run`, and runs it in threads: one for each driver, one for the channels and one for
/// the caches, over one locked machine and one pool of slots. It writes the history that they made, as its count of
/// events and a token a line, and then the report of that history's run. Other words are refused.
///
/// Returns the status: 0 the run ended with no touch and every script at its end; 1 a touch was reported; 2 unknown
/// words; 3 the input is refused; 4 a read failed; 5 a write failed; 6 memory ran out; 7 no touch, and a script is not
/// at its end. It waits for locks and threads, and its return is not promised.
pub fn dmalive<R: Threads + Wait + Sync, S: Source, K: Sink, G: Gate>(
    rt: &R,
    alloc: Global,
    words: &Vec<String>,
    src: &mut S,
    out: &mut K,
    gate: &G,
) -> u8
    requires { S.ended src.old ≡ false }

    // What is due for the words and the whole input is answered and written.
    ensures unknown { is_run (map string_bytes words.now.items) ≡ false → IsAnswer result
        → (result ≡ unknown_words.status) × Appends (K.held out.old) (K.held out.new) unknown_words.text }
    ensures run { is_run (map string_bytes words.now.items) ≡ true → IsAnswer result
        → (bytes : List ℕ) × HasRead (S.left src.old) (S.left src.new) (S.ended src.new) bytes
        × WroteFor (K.held out.old) (K.held out.new) (reading bytes) result
        × IsRunWhereRead result bytes }

    // Words that are no command are refused before anything is read. At most one byte more than a scenario may have is
    // taken from the source.
    ensures words { is_run (map string_bytes words.now.items) ≡ false → (src.new ≡ src.old) × (result ≢ 4) }
    ensures stops { TakesFew (S.left src.old) (S.left src.new) }

    // A failure has its cause.
    ensures source { result ≡ 4 → Rose (S.faults src.old) (S.faults src.new) × Keeps (K.held out.old) (K.held out.new) }
    ensures sink { result ≡ 5 → Rose (K.faults out.old) (K.faults out.new) }

    // Whatever is answered, what was written is a prefix of what is due.
    ensures prefix { WrotePrefix (map string_bytes words.now.items) (S.left src.old) (S.left src.new) (S.ended src.new) (K.held out.old) (K.held out.new) }
{
    if !is_run(words) {
        return put(out, 2, b"refused words\n");
    }
    match read_input(alloc, src) {
        Ok(bytes) => answer_to(rt, alloc, &bytes, out, gate),
        Err(Lost::Failed) => 4,
        Err(Lost::NoMemory) => 6,
    }
}
