//! The line that sums up a run.

ghost use Rattle.std.specs.Prelude.{◌≡◌, ◌++◌, ◌∷◌, [], string_bytes, codes, decimal, IfOk, OnOk};
ghost use Rattle.nc_rules.specs.Lines.{phrase, words};
ghost use Rattle.std.specs.List.{count_by};
ghost use Rattle.nc_gen.specs.Summary.{is_copydone, is_noslot, line};

use nc_num::NoMemory;
use nc_world::{Answer, Record, Refusal, World};
use std::alloc::{AllocError, Global};

/// Returns whether a record is the answer of a copy that is done.
#[tactic(auto, unfolding(crate::specs::Summary::is_copydone))]
fn is_copydone(entry: &Record) -> bool
    ensures { result ≡ is_copydone entry.now }
{
    matches!(
        entry,
        Record::Ans {
            answer: Answer::CopyDone,
            ..
        }
    )
}

/// Returns whether a record is the answer that every slot was found held.
#[tactic(auto, unfolding(crate::specs::Summary::is_noslot))]
fn is_noslot(entry: &Record) -> bool
    ensures { result ≡ is_noslot entry.now }
{
    matches!(
        entry,
        Record::Ans {
            answer: Answer::Refused(Refusal::NoSlot),
            ..
        }
    )
}

/// Returns how many records are the answer `copydone`.
pub fn copies_done(records: &[Record]) -> usize
    ensures { result ≡ count_by is_copydone records.now }
{
    let mut count = 0;
    for entry in records {
        if is_copydone(entry) {
            count += 1;
        }
    }
    count
}

/// Returns how many records are the answer `noslot`.
pub fn slots_missed(records: &[Record]) -> usize
    ensures { result ≡ count_by is_noslot records.now }
{
    let mut count = 0;
    for entry in records {
        if is_noslot(entry) {
            count += 1;
        }
    }
    count
}

/// Appends the number, the harts and the events.
fn put_run(text: &mut String, n: u64, harts: u8, events: u64) -> Result<(), AllocError>
    ensures { OnOk result (string_bytes text.new ≡ string_bytes text.old
        ++ phrase (codes "gen" ∷ decimal n ∷ codes "harts" ∷ decimal harts ∷ codes "events" ∷ decimal events ∷ [])) }
{
    write!(text, "gen {n} harts {harts} events {events}")
}

/// Appends the touches and the answers.
fn put_counts(text: &mut String, touches: u64, done: u64, noslot: u64) -> Result<(), AllocError>
    ensures { OnOk result (string_bytes text.new ≡ string_bytes text.old
        ++ 32 ∷ words (codes "touches" ∷ decimal touches ∷ codes "copydone" ∷ decimal done ∷ codes "noslot" ∷ decimal noslot ∷ [])) }
{
    write!(text, " touches {touches} copydone {done} noslot {noslot}\n")
}
/// Returns the line that sums up the run of number n's scenario: the number, its count of harts, the world's counts of
/// events and touches, and the counts of the answers `copydone` and `noslot`.
///
/// # Errors
///
/// `NoMemory` where memory runs out.
pub fn summary(
    alloc: Global,
    n: u64,
    harts: u8,
    w: &World,
    done: u64,
    noslot: u64,
) -> Result<Vec<u8>, NoMemory>
    ensures { IfOk result (λ v. v.items ≡ line n harts w.now.state done noslot) }
{
    let mut text = String::new(alloc);
    put_run(&mut text, n, harts, w.events())?;
    put_counts(&mut text, w.touches(), done, noslot)?;
    Ok(text.into_bytes())
}
