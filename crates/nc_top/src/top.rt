//! The top call of `dmasim`, and the answer to each command.

ghost use Rattle.std.specs.Prelude.{◌≡◌, ◌≢◌, ◌⊎◌, ◌↔◌, [], List, ℕ, map, string_bytes, false, true, Some, None, Ok, Err};
ghost use Rattle.std.specs.Io.KnownBytes.{Appends, Keeps};
ghost use Rattle.nc_io.specs.Causes.{Rose};
ghost use Rattle.nc_io.specs.Streams.{GrowsByPrefix};
ghost use Rattle.nc_scen.specs.Reading.{reading};
ghost use Rattle.nc_migrate.specs.Migrating.{migrated};
ghost use Rattle.nc_pieces.specs.Serving.{pool_answer};
ghost use Rattle.nc_flat.specs.Laws.{EachRunIsLatest, EachRunIsKept};
ghost use Rattle.nc_copied.specs.Laws.{EachCopyIsDone};
ghost use Rattle.nc_scen.specs.Accepted.{IsAccepted};
ghost use Rattle.nc_top.specs.Due.{due, due_by, due_for, due_for_gen, due_for_migrate, due_for_pool, command_of, is_migrate, is_pool, is_run, IsAnswer};
ghost use Rattle.nc_top.specs.Inputs.{HasRead, IsFlat, IsRunWhereRead, KeepsScenario, TakesFew, TellsItsTouches, WrotePrefix};

use crate::generated::run_generated;
use crate::input::{Lost, input_of};
use crate::run::run_out;
use crate::words::{Command, command_of};
use nc_copied::copied_law;
use nc_counts::status_law;
use nc_flat::{kept_law, latest_law};
use nc_io::{Sink, Source, Stop, write_all};
use nc_migrate::migrate;
use nc_num::NoMemory;
use nc_pieces::{PoolFault, pool_answer, pool_refused};
use nc_report::refused;
use nc_scen::{ScenFault, Scenario, read};
use std::alloc::Global;

/// Writes `text` to the sink and returns `status`. Where a write fails it returns 5, and where memory runs out 6; then
/// a prefix of the text was written.
pub fn put<K: Sink>(out: &mut K, status: u8, text: &[u8]) -> u8
    requires { IsAnswer status }
    ensures written { IsAnswer result → (result ≡ status) × Appends (K.held out.old) (K.held out.new) text.now }
    ensures sink { result ≡ 5 → Rose (K.faults out.old) (K.faults out.new) }
    ensures reads { result ≢ 4 }
    ensures prefix { GrowsByPrefix (K.held out.old) (K.held out.new) text.now }
{
    match write_all(out, text) {
        Ok(()) => status,
        Err(Stop::Failed) => 5,
        Err(Stop::NoMemory) => 6,
    }
}

/// Runs a scenario and writes its report.
fn answer_scenario<K: Sink>(alloc: Global, sc: &Scenario, out: &mut K) -> u8
    requires { IsAccepted sc.now }
    ensures written { IsAnswer result → (result ≡ (due_for (Ok sc.now)).status) × Appends (K.held out.old) (K.held out.new) (due_for (Ok sc.now)).text }
    ensures sink { result ≡ 5 → Rose (K.faults out.old) (K.faults out.new) }
    ensures reads { result ≢ 4 }
    ensures run { IsAnswer result → result ≢ 3 }
    ensures prefix { GrowsByPrefix (K.held out.old) (K.held out.new) (due_for (Ok sc.now)).text }
{
    match run_out(alloc, sc, out) {
        Ok(status) => status,
        Err(Stop::Failed) => 5,
        Err(Stop::NoMemory) => 6,
    }
}

/// Answers an input: the report of a scenario, or the line of a refusal.
fn answer_to<K: Sink>(alloc: Global, bytes: &[u8], out: &mut K) -> u8
    ensures written { IsAnswer result → (result ≡ (due_for (reading bytes.now)).status) × Appends (K.held out.old) (K.held out.new) (due_for (reading bytes.now)).text }
    ensures sink { result ≡ 5 → Rose (K.faults out.old) (K.faults out.new) }
    ensures reads { result ≢ 4 }
    ensures read { IsAnswer result → IsRunWhereRead result bytes.now }
    ensures flat { IsAnswer result → IsFlat result bytes.now }
    ensures touches { IsAnswer result → TellsItsTouches result bytes.now }
    ensures prefix { Keeps (K.held out.old) (K.held out.new) ⊎ GrowsByPrefix (K.held out.old) (K.held out.new) (due_for (reading bytes.now)).text }
{
    match read(alloc, bytes) {
        Ok(sc) => {
            latest_law();
            kept_law();
            copied_law();
            status_law();
            answer_scenario(alloc, &sc, out)
        }
        Err(ScenFault::Refused(r)) => match refused(alloc, &r) {
            Ok(text) => put(out, 3, &text),
            Err(_) => 6,
        },
        Err(ScenFault::NoMemory) => 6,
    }
}

/// Answers an input for the command `migrate`: the scenario moved to version 2, or the line of a refusal.
fn answer_migrate<K: Sink>(alloc: Global, bytes: &[u8], out: &mut K) -> u8
    ensures written { IsAnswer result → (result ≡ (due_for_migrate (migrated bytes.now)).status) × Appends (K.held out.old) (K.held out.new) (due_for_migrate (migrated bytes.now)).text }
    ensures sink { result ≡ 5 → Rose (K.faults out.old) (K.faults out.new) }
    ensures reads { result ≢ 4 }
    ensures law { result ≡ 0 → KeepsScenario bytes.now (due_for_migrate (migrated bytes.now)).text }
    ensures prefix { Keeps (K.held out.old) (K.held out.new) ⊎ GrowsByPrefix (K.held out.old) (K.held out.new) (due_for_migrate (migrated bytes.now)).text }
{
    match migrate(alloc, bytes) {
        Ok(text) => put(out, 0, &text),
        Err(ScenFault::Refused(r)) => match refused(alloc, &r) {
            Ok(text) => put(out, 3, &text),
            Err(_) => 6,
        },
        Err(ScenFault::NoMemory) => 6,
    }
}

/// Answers an input for the command `pool`: its lines, or the line of a refusal.
fn answer_pool<K: Sink>(alloc: Global, bytes: &[u8], out: &mut K) -> u8
    ensures written { IsAnswer result → (result ≡ (due_for_pool (pool_answer bytes.now)).status) × Appends (K.held out.old) (K.held out.new) (due_for_pool (pool_answer bytes.now)).text }
    ensures sink { result ≡ 5 → Rose (K.faults out.old) (K.faults out.new) }
    ensures reads { result ≢ 4 }
    ensures prefix { Keeps (K.held out.old) (K.held out.new) ⊎ GrowsByPrefix (K.held out.old) (K.held out.new) (due_for_pool (pool_answer bytes.now)).text }
{
    match pool_answer(alloc, bytes) {
        Ok(text) => put(out, 0, &text),
        Err(PoolFault::Refused(r)) => put(out, 3, pool_refused(r)),
        Err(PoolFault::NoMemory) => 6,
    }
}

/// Answers the command `gen`: the line that sums up the run of the scenario of the number `n`.
fn answer_gen<K: Sink>(alloc: Global, n: u64, out: &mut K) -> u8
    ensures written { IsAnswer result → (result ≡ (due_for_gen n).status) × Appends (K.held out.old) (K.held out.new) (due_for_gen n).text }
    ensures sink { result ≡ 5 → Rose (K.faults out.old) (K.faults out.new) }
    ensures reads { result ≢ 4 }
    ensures runs { result ≢ 3 }
    ensures prefix { Keeps (K.held out.old) (K.held out.new) ⊎ GrowsByPrefix (K.held out.old) (K.held out.new) (due_for_gen n).text }
{
    match run_generated(alloc, n) {
        Ok(generated) => put(out, generated.status, &generated.line),
        Err(NoMemory) => 6,
    }
}

/// Answers an input for a command.
fn answer_command<K: Sink>(alloc: Global, command: Command, bytes: &[u8], out: &mut K) -> u8
    ensures written { IsAnswer result → (result ≡ (due_by command bytes.now).status) × Appends (K.held out.old) (K.held out.new) (due_by command bytes.now).text }
    ensures sink { result ≡ 5 → Rose (K.faults out.old) (K.faults out.new) }
    ensures reads { result ≢ 4 }
    ensures read { command ≡ Command.Run → IsAnswer result → IsRunWhereRead result bytes.now }
    ensures flat { command ≡ Command.Run → IsAnswer result → IsFlat result bytes.now }
    ensures touches { command ≡ Command.Run → IsAnswer result → TellsItsTouches result bytes.now }
    ensures generated { (n : ℕ) → command ≡ Command.Gen n → result ≢ 3 }
    ensures moved { command ≡ Command.Migrate → result ≡ 0 → KeepsScenario bytes.now (due_by command bytes.now).text }
    ensures prefix { Keeps (K.held out.old) (K.held out.new) ⊎ GrowsByPrefix (K.held out.old) (K.held out.new) (due_by command bytes.now).text }
{
    match command {
        Command::Run => answer_to(alloc, bytes, out),
        Command::Migrate => answer_migrate(alloc, bytes, out),
        Command::Pool => answer_pool(alloc, bytes, out),
        Command::Gen(n) => answer_gen(alloc, n, out),
    }
}

/// Carries out the command that the words name, and returns the status.
///
/// For `run` it reads a scenario and writes its report. For `migrate` it writes the scenario moved to version 2. For
/// `pool` it reads operations on a pool of small pieces, and writes their lines. For `gen N` it reads nothing, runs the
/// scenario of the number N, and writes the line that sums the run up. Other words are refused.
///
/// Statuses: 0 the run ended with no touch and every script at its end, or all was written; 1 a touch was reported; 2
/// unknown words; 3 the input is refused; 4 a read failed; 5 a write failed; 6 memory ran out; 7 no touch, and a script
/// is not at its end.
#[tactic(auto, unfolding(crate::specs::Due::due))]
pub fn dmasim<S: Source, K: Sink>(
    alloc: Global,
    words: &Vec<String>,
    src: &mut S,
    out: &mut K,
) -> u8
    requires { S.ended src.old ≡ false }

    // What is due for the words and the whole input is answered and written.
    ensures unknown { command_of (map string_bytes words.now.items) ≡ None → IsAnswer result
        → (result ≡ (due (map string_bytes words.now.items) []).status)
        × Appends (K.held out.old) (K.held out.new) (due (map string_bytes words.now.items) []).text }
    ensures run { is_run (map string_bytes words.now.items) ≡ true → IsAnswer result
        → (bytes : List ℕ) × HasRead (S.left src.old) (S.left src.new) (S.ended src.new) bytes
        × (result ≡ (due (map string_bytes words.now.items) bytes).status)
        × Appends (K.held out.old) (K.held out.new) (due (map string_bytes words.now.items) bytes).text
        × IsRunWhereRead result bytes
        × IsFlat result bytes
        × TellsItsTouches result bytes }
    ensures migrate { is_migrate (map string_bytes words.now.items) ≡ true → IsAnswer result
        → (bytes : List ℕ) × HasRead (S.left src.old) (S.left src.new) (S.ended src.new) bytes
        × (result ≡ (due (map string_bytes words.now.items) bytes).status)
        × Appends (K.held out.old) (K.held out.new) (due (map string_bytes words.now.items) bytes).text
        × (result ≡ 0 → KeepsScenario bytes (due (map string_bytes words.now.items) bytes).text) }
    ensures pool { is_pool (map string_bytes words.now.items) ≡ true → IsAnswer result
        → (bytes : List ℕ) × HasRead (S.left src.old) (S.left src.new) (S.ended src.new) bytes
        × (result ≡ (due (map string_bytes words.now.items) bytes).status)
        × Appends (K.held out.old) (K.held out.new) (due (map string_bytes words.now.items) bytes).text }
    ensures generated { (n : ℕ) → command_of (map string_bytes words.now.items) ≡ Some (Command.Gen n)
        → (src.new ≡ src.old) × (result ≢ 3) × (result ≢ 4)
        × (IsAnswer result → (result ≡ (due (map string_bytes words.now.items) []).status)
        × Appends (K.held out.old) (K.held out.new) (due (map string_bytes words.now.items) []).text) }

    // Words that are no command are refused before anything is read. At most one byte more than a scenario may have is
    // taken from the source.
    ensures words { command_of (map string_bytes words.now.items) ≡ None → (src.new ≡ src.old) × (result ≢ 4) }
    ensures stops { TakesFew (S.left src.old) (S.left src.new) }

    // A failure has its cause.
    ensures source { result ≡ 4 → Rose (S.faults src.old) (S.faults src.new) × Keeps (K.held out.old) (K.held out.new) }
    ensures sink { result ≡ 5 → Rose (K.faults out.old) (K.faults out.new) }

    // Whatever is answered, what was written is a prefix of what is due.
    ensures prefix { WrotePrefix (map string_bytes words.now.items) (S.left src.old) (S.left src.new) (S.ended src.new) (K.held out.old) (K.held out.new) }

    // Up to the first touch every load and channel read of every run shows flat memory, and after each prefix of a run
    // without a touch the bytes of flat memory are kept. It holds of every run of every accepted scenario, the reported
    // one among them.
    ensures latest { EachRunIsLatest }
    ensures kept { EachRunIsKept }

    // Of each copy that is answered done before the first touch: with its poll the destination has the source's bytes
    // in flat memory; at the answer the hart sees flat memory there, which still has the source's bytes if the channel
    // wrote nothing since the poll. Before the first touch no copy is answered failed. It holds of every run of every
    // accepted scenario too.
    ensures copied { EachCopyIsDone }
{
    latest_law();
    kept_law();
    copied_law();
    let Some(command) = command_of(words) else {
        return put(out, 2, b"refused words\n");
    };
    match input_of(alloc, command, src) {
        Ok(bytes) => answer_command(alloc, command, &bytes, out),
        Err(Lost::Failed) => 4,
        Err(Lost::NoMemory) => 6,
    }
}
