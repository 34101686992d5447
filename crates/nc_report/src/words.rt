//! The words of a line, put behind a text.

ghost use Rattle.std.specs.Prelude.{◌≡◌, ◌++◌, ◌∷◌, [], decimal, OnOk};
ghost use Rattle.std.specs.List.{flat_map};
ghost use Rattle.nc_rules.specs.Lines.{token, kind, actor, mapping, owner, operation, field, phrase, refusal, segment, answer, target, tried, heard, hex_digits};
ghost use Rattle.nc_rules.specs.declared.answers.Answer.{Answer};

use crate::put;
use nc_env::{CboOp, Field};
use nc_model::{Actor, Owner, TouchKind};
use nc_num::MapId;
use nc_plan::{IoTarget, SegList, Segment};
use nc_rules::{Answer, Refusal, ToldAnswer};
use nc_scen::Event;
use nc_slots::TryAnswer;
use std::alloc::AllocError;

/// Puts the token of an event.
pub(crate) fn put_token(text: &mut Vec<u8>, e: Event) -> Result<(), AllocError>
    ensures { OnOk result (text.new.items ≡ text.old.items ++ token e) }
{
    match e {
        Event::Issue(h) => put::number_behind(text, b'i', h.0 as u64),
        Event::Try(h) => put::number_behind(text, b't', h.0 as u64),
        Event::Told(h, true) => put::number_behind(text, b'g', h.0 as u64),
        Event::Told(h, false) => put::number_behind(text, b'n', h.0 as u64),
        Event::Drain(h, i) => put_two(text, b'd', h.0 as u64, i as u64),
        Event::Fill(h, b) => put_two(text, b'f', h.0 as u64, b.0 as u64),
        Event::Evict(h, b) => put_two(text, b'e', h.0 as u64, b.0 as u64),
        Event::ChanRead(c) => put::number_behind(text, b'r', c.0 as u64),
        Event::ChanWrite(c) => put::number_behind(text, b'w', c.0 as u64),
    }
}

/// Puts a letter, and two numbers with a dot between.
fn put_two(text: &mut Vec<u8>, letter: u8, m: u64, n: u64) -> Result<(), AllocError>
    ensures { OnOk result (text.new.items ≡ text.old.items ++ (letter ∷ decimal m ++ 46 ∷ decimal n)) }
{
    put::number_behind(text, letter, m)?;
    put::number_behind(text, b'.', n)
}

/// Returns the word of a kind of touch.
pub(crate) fn kind_word(k: TouchKind) -> &'static str
    ensures { result.now ≡ kind k }
{
    match k {
        TouchKind::Load => "load",
        TouchKind::Store => "store",
        TouchKind::Channel => "channel",
        TouchKind::Register => "register",
        TouchKind::Alias => "alias",
        TouchKind::Discard => "discard",
    }
}

/// Puts who acts.
pub(crate) fn put_actor(text: &mut Vec<u8>, who: Actor) -> Result<(), AllocError>
    ensures { OnOk result (text.new.items ≡ text.old.items ++ actor who) }
{
    match who {
        Actor::Hart(h) => put::counted(text, "hart", h.0 as u64),
        Actor::Chan(c) => put::counted(text, "chan", c.0 as u64),
    }
}

/// Puts a word and the name of a mapping.
fn put_mapping(text: &mut Vec<u8>, word: &str, m: MapId) -> Result<(), AllocError>
    ensures { OnOk result (text.new.items ≡ text.old.items ++ mapping word.now m) }
{
    put::pair(text, word, m.hart.0 as u64, m.label.0 as u64)?;
    put::number_behind(text, b' ', m.entry as u64)
}

/// Puts an owner.
pub(crate) fn put_owner(text: &mut Vec<u8>, o: Owner) -> Result<(), AllocError>
    ensures { OnOk result (text.new.items ≡ text.old.items ++ owner o) }
{
    match o {
        Owner::Thread(h) => put::counted(text, "thread", h.0 as u64),
        Owner::Passing(h, g) => put::pair(text, "passing", h.0 as u64, g.0 as u64),
        Owner::Lending(m) => put_mapping(text, "lending", m),
        Owner::Device(m) => put_mapping(text, "device", m),
        Owner::Returning(m) => put_mapping(text, "returning", m),
        Owner::Synced(m) => put_mapping(text, "synced", m),
        Owner::Pool => put::word(text, "pool"),
    }
}

/// Returns the word of a cache operation, by its effect.
pub(crate) fn operation_word(op: CboOp) -> &'static str
    ensures { result.now ≡ operation op }
{
    match op {
        CboOp::Clean => "clean",
        CboOp::Flush => "flush",
        CboOp::Inval => "inval",
        CboOp::Zero => "zero",
    }
}

/// Returns the word of a field of an environment configuration register.
fn field_word(x: Field) -> &'static str
    ensures { result.now ≡ field x }
{
    match x {
        Field::MCbie => "menvcfg.cbie",
        Field::MCbcfe => "menvcfg.cbcfe",
        Field::MCbze => "menvcfg.cbze",
        Field::SCbie => "senvcfg.cbie",
        Field::SCbcfe => "senvcfg.cbcfe",
        Field::SCbze => "senvcfg.cbze",
    }
}

/// Puts a word and a field, with a blank between.
fn put_field(text: &mut Vec<u8>, word: &str, x: Field) -> Result<(), AllocError>
    ensures { OnOk result (text.new.items ≡ text.old.items ++ phrase (word.now ∷ field x ∷ [])) }
{
    put::word(text, word)?;
    put::byte(text, b' ')?;
    put::word(text, field_word(x))
}

/// Puts a word and a number in at least eight hexadecimal digits, with a blank between.
fn put_eight(text: &mut Vec<u8>, word: &str, n: u32) -> Result<(), AllocError>
    ensures { OnOk result (text.new.items ≡ text.old.items ++ phrase (word.now ∷ hex_digits 8 n ∷ [])) }
{
    put::word(text, word)?;
    put::byte(text, b' ')?;
    put::eight(text, n)
}

/// Puts why an operation is refused.
fn put_refusal(text: &mut Vec<u8>, r: Refusal) -> Result<(), AllocError>
    ensures { OnOk result (text.new.items ≡ text.old.items ++ refusal r) }
{
    match r {
        Refusal::Empty => put::word(text, "empty"),
        Refusal::BadRange => put::word(text, "badrange"),
        Refusal::LabelUsed => put::word(text, "labelused"),
        Refusal::NoLabel => put::word(text, "nolabel"),
        Refusal::NotYours(o) => {
            put::word(text, "notyours ")?;
            put_owner(text, o)
        }
        Refusal::CboOff(x) => put_field(text, "cbooff", x),
        Refusal::TooBig => put::word(text, "toobig"),
        Refusal::NoSlot => put::word(text, "noslot"),
        Refusal::ChannelBusy(g) => put::counted(text, "channelbusy", g.0 as u64),
        Refusal::NoPbmt => put::word(text, "nopbmt"),
        Refusal::NoPage => put::word(text, "nopage"),
        Refusal::BadCount(n) => put::counted(text, "badcount", n as u64),
        Refusal::IllegalCbo(x) => put_field(text, "illegal", x),
        Refusal::PageFault(va, bits) => {
            put_eight(text, "pagefault", va)?;
            put::number_behind(text, b' ', bits as u64)
        }
        Refusal::BadMmio(off, width) => {
            put::word(text, "badmmio ")?;
            put::three(text, off)?;
            put::number_behind(text, b' ', width as u64)
        }
    }
}

/// Puts a segment, and a blank before it.
fn put_segment(text: &mut Vec<u8>, s: Segment) -> Result<(), AllocError>
    ensures { OnOk result (text.new.items ≡ text.old.items ++ segment s) }
{
    put::byte(text, b' ')?;
    put::eight(text, s.bus)?;
    put::number_behind(text, b':', s.len as u64)
}

/// Puts segments, each with a blank before it.
fn put_segments(text: &mut Vec<u8>, segments: &[Segment]) -> Result<(), AllocError>
    ensures { OnOk result (text.new.items ≡ text.old.items ++ flat_map segment segments.now) }
{
    for s in segments {
        put_segment(text, *s)?;
    }
    Ok(())
}

/// Puts how many segments a list has, and the segments.
fn put_list(text: &mut Vec<u8>, list: &SegList) -> Result<(), AllocError>
    ensures { OnOk result (text.new.items ≡ text.old.items ++ answer (Answer.Segments list.now)) }
{
    let segments = list.as_slice();
    put::counted(text, "segments", segments.len() as u64)?;
    put_segments(text, segments)
}

/// Puts the answer of an operation.
pub(crate) fn put_answer(text: &mut Vec<u8>, a: &Answer) -> Result<(), AllocError>
    ensures { OnOk result (text.new.items ≡ text.old.items ++ answer a.now) }
{
    match a {
        Answer::Mapped(bus) => put_eight(text, "mapped", *bus),
        Answer::Unmapped => put::word(text, "unmapped"),
        Answer::Cpu => put::word(text, "cpu"),
        Answer::Dev => put::word(text, "dev"),
        Answer::Segments(list) => put_list(text, list),
        Answer::NoSegments(r) => {
            put::counted(text, "segments", 0)?;
            put::byte(text, b' ')?;
            put_refusal(text, *r)
        }
        Answer::Allocated(bus) => put_eight(text, "allocated", *bus),
        Answer::Freed => put::word(text, "freed"),
        Answer::Given => put::word(text, "given"),
        Answer::Taken => put::word(text, "taken"),
        Answer::Handed => put::word(text, "handed"),
        Answer::Took => put::word(text, "took"),
        Answer::Claimed => put::word(text, "claimed"),
        Answer::Released => put::word(text, "released"),
        Answer::Set => put::word(text, "set"),
        Answer::Started => put::word(text, "started"),
        Answer::Done(control) => put_eight(text, "done", *control),
        Answer::Error(control) => put_eight(text, "error", *control),
        Answer::Value(value) => {
            put::word(text, "value ")?;
            put::sixteen(text, *value)
        }
        Answer::Wrote => put::word(text, "wrote"),
        Answer::CopyDone => put::word(text, "copydone"),
        Answer::CopyFailed(control) => put_eight(text, "copyfailed", *control),
        Answer::Refused(r) => put_refusal(text, *r),
    }
}

/// Puts what an IO store stores to.
pub(crate) fn put_target(text: &mut Vec<u8>, to: IoTarget) -> Result<(), AllocError>
    ensures { OnOk result (text.new.items ≡ text.old.items ++ target to) }
{
    match to {
        IoTarget::Reg {
            chan,
            off,
            value,
            ..
        } => {
            put::counted(text, "reg", chan.0 as u64)?;
            put::byte(text, b' ')?;
            put::three(text, off)?;
            put::byte(text, b' ')?;
            put::sixteen(text, value)
        }
        IoTarget::Mail { buf, to } => put::pair(text, "mail", buf as u64, to.0 as u64),
        IoTarget::Lend {
            label,
            first,
            count,
        } => {
            put::pair(text, "lend", label.0 as u64, first as u64)?;
            put::number_behind(text, b' ', count as u64)
        }
    }
}

/// Puts what a try of a slot word found.
pub(crate) fn put_tried(text: &mut Vec<u8>, found: TryAnswer) -> Result<(), AllocError>
    ensures { OnOk result (text.new.items ≡ text.old.items ++ tried found) }
{
    match found {
        TryAnswer::Got => put::word(text, "got"),
        TryAnswer::Held(g) => put::counted(text, "held", g.0 as u64),
    }
}

/// Puts what became of a told answer.
pub(crate) fn put_heard(text: &mut Vec<u8>, found: ToldAnswer) -> Result<(), AllocError>
    ensures { OnOk result (text.new.items ≡ text.old.items ++ heard found) }
{
    match found {
        ToldAnswer::Got => put::word(text, "got"),
        ToldAnswer::Miss => put::word(text, "miss"),
        ToldAnswer::Held(g) => put::counted(text, "held", g.0 as u64),
    }
}
