//! A line for each record. Each function here writes one form of line at the end of a text.

ghost use Rattle.std.specs.Prelude.{◌≡◌, ◌++◌, [], ◌∷◌, decimal, OnOk, IfOk};
ghost use Rattle.std.specs.List.{flat_map};
ghost use Rattle.hex.specs.Hex.{encode_lower};
ghost use Rattle.nc_rules.specs.Lines.{line, words, hex_digits, place, owner, origin, operation, target};
ghost use Rattle.nc_rules.specs.declared.records.Record.{Record};

use crate::put;
use crate::words::{
    kind_word, operation_word, put_actor, put_answer, put_heard, put_owner, put_target, put_token,
    put_tried,
};
use nc_cache::Origin;
use nc_env::CboOp;
use nc_model::{Owner, Touch};
use nc_num::{Bytes, ChanNo, HartNo, NoMemory, Place, Span};
use nc_plan::IoTarget;
use nc_rules::{Answer, Record, ToldAnswer};
use nc_scen::Event;
use nc_slots::TryAnswer;
use std::alloc::{AllocError, Global};

fn event(text: &mut Vec<u8>, e: Event) -> Result<(), AllocError>
    ensures { OnOk result (text.new.items ≡ text.old.items ++ line (Record.Event e)) }
{
    put::word(text, "e ")?;
    put_token(text, e)?;
    put::byte(text, b'\n')
}

/// Puts a blank and a place.
fn at_place(text: &mut Vec<u8>, at: Place) -> Result<(), AllocError>
    ensures { OnOk result (text.new.items ≡ text.old.items ++ 32 ∷ place at) }
{
    put::byte(text, b' ')?;
    put::six(text, at.0)
}

/// Puts a span and its owner, to the end of their line.
fn owned_span(text: &mut Vec<u8>, span: Span, holder: Owner) -> Result<(), AllocError>
    ensures { OnOk result (text.new.items ≡ text.old.items
        ++ 32 ∷ words (hex_digits 6 span.at ∷ decimal span.len ∷ owner holder ∷ [])) }
{
    at_place(text, Place(span.at))?;
    put::number_behind(text, b' ', span.len as u64)?;
    put::byte(text, b' ')?;
    put_owner(text, holder)?;
    put::byte(text, b'\n')
}

fn touch(text: &mut Vec<u8>, t: Touch) -> Result<(), AllocError>
    ensures { OnOk result (text.new.items ≡ text.old.items ++ line (Record.Touched t)) }
{
    put::word(text, "touch ")?;
    put::word(text, kind_word(t.kind))?;
    put::byte(text, b' ')?;
    put_actor(text, t.who)?;
    owned_span(text, t.span, t.holder)
}

/// Writes the bytes of a hart or a channel at a place, after this word and the index of the hart or channel.
fn piece(text: &mut Vec<u8>, word: &str, n: u8, at: Place, bytes: &Bytes) -> Result<(), AllocError>
    ensures { OnOk result (text.new.items ≡ text.old.items
        ++ words (word.now ∷ decimal n ∷ place at ∷ encode_lower bytes.now ∷ [])) }
{
    put::counted(text, word, n as u64)?;
    at_place(text, at)?;
    put::byte(text, b' ')?;
    put::digits(text, bytes)?;
    put::byte(text, b'\n')
}

/// Writes a cache operation on a block, after this word.
fn operation(
    text: &mut Vec<u8>,
    word: &str,
    hart: HartNo,
    op: CboOp,
    at: Place,
) -> Result<(), AllocError>
    ensures { OnOk result (text.new.items ≡ text.old.items
        ++ words (word.now ∷ decimal hart.0 ∷ operation op ∷ place at ∷ [])) }
{
    put::counted(text, word, hart.0 as u64)?;
    put::byte(text, b' ')?;
    put::word(text, operation_word(op))?;
    at_place(text, at)?;
    put::byte(text, b'\n')
}

/// Writes a fence's sets, after this word.
fn sets(text: &mut Vec<u8>, word: &str, hart: HartNo, pred: u8, succ: u8) -> Result<(), AllocError>
    ensures { OnOk result (text.new.items ≡ text.old.items
        ++ words (word.now ∷ decimal hart.0 ∷ decimal pred ∷ decimal succ ∷ [])) }
{
    put::pair(text, word, hart.0 as u64, pred as u64)?;
    put::number_behind(text, b' ', succ as u64)?;
    put::byte(text, b'\n')
}

/// Writes an IO store, after this word.
fn target(text: &mut Vec<u8>, word: &str, hart: HartNo, to: IoTarget) -> Result<(), AllocError>
    ensures { OnOk result (text.new.items ≡ text.old.items
        ++ words (word.now ∷ decimal hart.0 ∷ target to ∷ [])) }
{
    put::counted(text, word, hart.0 as u64)?;
    put::byte(text, b' ')?;
    put_target(text, to)?;
    put::byte(text, b'\n')
}

fn drained_mark(text: &mut Vec<u8>, hart: HartNo) -> Result<(), AllocError>
    ensures { OnOk result (text.new.items ≡ text.old.items ++ line (Record.DrMark hart)) }
{
    put::counted(text, "dr", hart.0 as u64)?;
    put::word(text, " mark\n")
}

/// Writes where a copy came from, to the end of its line.
fn origin(text: &mut Vec<u8>, from: &Origin) -> Result<(), AllocError>
    ensures { OnOk result (text.new.items ≡ text.old.items ++ words (origin from.now ∷ [])) }
{
    match from {
        Origin::Mem(bytes) => {
            put::word(text, "mem ")?;
            put::digits(text, bytes)?;
            put::byte(text, b'\n')
        }
        Origin::Hart(g) => {
            put::counted(text, "hart", g.0 as u64)?;
            put::byte(text, b'\n')
        }
        Origin::Held => put::word(text, "held\n"),
    }
}

/// Writes a copy that came, after this word.
fn copy(
    text: &mut Vec<u8>,
    word: &str,
    hart: HartNo,
    at: Place,
    from: &Origin,
) -> Result<(), AllocError>
    ensures { OnOk result (text.new.items ≡ text.old.items
        ++ words (word.now ∷ decimal hart.0 ∷ place at ∷ origin from.now ∷ [])) }
{
    put::counted(text, word, hart.0 as u64)?;
    at_place(text, at)?;
    put::byte(text, b' ')?;
    origin(text, from)
}

fn dropped(text: &mut Vec<u8>, hart: HartNo, at: Place) -> Result<(), AllocError>
    ensures { OnOk result (text.new.items ≡ text.old.items ++ line (Record.Drop hart at)) }
{
    put::counted(text, "drop", hart.0 as u64)?;
    at_place(text, at)?;
    put::byte(text, b'\n')
}

fn chan_done(text: &mut Vec<u8>, chan: ChanNo) -> Result<(), AllocError>
    ensures { OnOk result (text.new.items ≡ text.old.items ++ line (Record.Cd chan)) }
{
    put::counted(text, "cd", chan.0 as u64)?;
    put::byte(text, b'\n')
}

fn chan_error(text: &mut Vec<u8>, chan: ChanNo, bus: u64, len: u32) -> Result<(), AllocError>
    ensures { OnOk result (text.new.items ≡ text.old.items ++ line (Record.Ce chan bus len)) }
{
    put::counted(text, "ce", chan.0 as u64)?;
    put::byte(text, b' ')?;
    put::sixteen(text, bus)?;
    put::number_behind(text, b' ', len as u64)?;
    put::byte(text, b'\n')
}

fn owned(text: &mut Vec<u8>, span: Span, owner: Owner) -> Result<(), AllocError>
    ensures { OnOk result (text.new.items ≡ text.old.items ++ line (Record.Ow span owner)) }
{
    put::word(text, "ow")?;
    owned_span(text, span, owner)
}

fn tried(text: &mut Vec<u8>, hart: HartNo, word: u32, found: TryAnswer) -> Result<(), AllocError>
    ensures { OnOk result (text.new.items ≡ text.old.items ++ line (Record.Try hart word found)) }
{
    put::pair(text, "try", hart.0 as u64, word as u64)?;
    put::byte(text, b' ')?;
    put_tried(text, found)?;
    put::byte(text, b'\n')
}

fn told(text: &mut Vec<u8>, hart: HartNo, word: u32, found: ToldAnswer) -> Result<(), AllocError>
    ensures { OnOk result (text.new.items ≡ text.old.items ++ line (Record.Told hart word found)) }
{
    put::pair(text, "told", hart.0 as u64, word as u64)?;
    put::byte(text, b' ')?;
    put_heard(text, found)?;
    put::byte(text, b'\n')
}

fn given_back(text: &mut Vec<u8>, hart: HartNo, word: u32) -> Result<(), AllocError>
    ensures { OnOk result (text.new.items ≡ text.old.items ++ line (Record.Back hart word)) }
{
    put::pair(text, "back", hart.0 as u64, word as u64)?;
    put::byte(text, b'\n')
}

fn answered(text: &mut Vec<u8>, hart: HartNo, op: u32, answer: &Answer) -> Result<(), AllocError>
    ensures { OnOk result (text.new.items ≡ text.old.items ++ line (Record.Ans hart op answer.now)) }
{
    put::pair(text, "ans", hart.0 as u64, op as u64)?;
    put::byte(text, b' ')?;
    put_answer(text, answer)?;
    put::byte(text, b'\n')
}

/// Writes the line of a record at the end of a text.
fn put_line(text: &mut Vec<u8>, entry: &Record) -> Result<(), AllocError>
    ensures { OnOk result (text.new.items ≡ text.old.items ++ line entry.now) }
{
    match entry {
        Record::Event(e) => event(text, *e),
        Record::Touched(t) => touch(text, *t),
        Record::Ld { hart, at, bytes } => piece(text, "ld", hart.0, *at, bytes),
        Record::St { hart, at, bytes } => piece(text, "st", hart.0, *at, bytes),
        Record::Pl { hart, at, bytes } => piece(text, "pl", hart.0, *at, bytes),
        Record::Ps { hart, at, bytes } => piece(text, "ps", hart.0, *at, bytes),
        Record::Cbo { hart, op, at } => operation(text, "cbo", *hart, *op, *at),
        Record::Fence { hart, pred, succ } => sets(text, "fence", *hart, *pred, *succ),
        Record::Mark { hart, pred, succ } => sets(text, "mark", *hart, *pred, *succ),
        Record::Io { hart, target: to } => target(text, "io", *hart, *to),
        Record::DrStore { hart, at, bytes } => piece(text, "dr", hart.0, *at, bytes),
        Record::DrCbo { hart, op, at } => operation(text, "dr", *hart, *op, *at),
        Record::DrIo { hart, target: to } => target(text, "dr", *hart, *to),
        Record::DrMark(hart) => drained_mark(text, *hart),
        Record::Fill { hart, at, from } => copy(text, "fill", *hart, *at, from),
        Record::Own { hart, at, from } => copy(text, "own", *hart, *at, from),
        Record::Wb { hart, at, bytes } => piece(text, "wb", hart.0, *at, bytes),
        Record::Drop { hart, at } => dropped(text, *hart, *at),
        Record::Cr { chan, at, bytes } => piece(text, "cr", chan.0, *at, bytes),
        Record::Cw { chan, at, bytes } => piece(text, "cw", chan.0, *at, bytes),
        Record::Cd(chan) => chan_done(text, *chan),
        Record::Ce { chan, bus, len } => chan_error(text, *chan, *bus, *len),
        Record::Ow { span, owner } => owned(text, *span, *owner),
        Record::Try { hart, word, answer } => tried(text, *hart, *word, *answer),
        Record::Told { hart, word, answer } => told(text, *hart, *word, *answer),
        Record::Back { hart, word } => given_back(text, *hart, *word),
        Record::Ans { hart, op, answer } => answered(text, *hart, *op, answer),
    }
}

/// Puts the lines of some records.
pub(crate) fn put_lines(text: &mut Vec<u8>, records: &[Record]) -> Result<(), AllocError>
    ensures { OnOk result (text.new.items ≡ text.old.items ++ flat_map line records.now) }
{
    for entry in records {
        put_line(text, entry)?;
    }
    Ok(())
}

/// Returns the line `e TOKEN` of an event.
///
/// # Errors
///
/// `NoMemory` where memory runs out.
pub fn event_line(alloc: Global, e: Event) -> Result<Vec<u8>, NoMemory>
    ensures { IfOk result (λ v. v.items ≡ line (Record.Event e)) }
{
    let mut text = Vec::new(alloc);
    event(&mut text, e)?;
    Ok(text)
}

/// Returns the line of a record.
///
/// # Errors
///
/// `NoMemory` where memory runs out.
pub fn line(alloc: Global, entry: &Record) -> Result<Vec<u8>, NoMemory>
    ensures { IfOk result (λ v. v.items ≡ line entry.now) }
{
    let mut text = Vec::new(alloc);
    put_line(&mut text, entry)?;
    Ok(text)
}
