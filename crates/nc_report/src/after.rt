//! The lines after the events.

ghost use Rattle.std.specs.Prelude.{◌≡◌, ◌≤◌, ◌<◌, ◌+◌, ◌%◌, ◌^◌, ◌++◌, ◌∷◌, [], length, string_bytes, codes, decimal, IfOk, OnOk};
ghost use Rattle.hex.specs.Hex.{encode_lower};
ghost use Rattle.nc_num.specs.Sizes.{IsBlockSize};
ghost use Rattle.nc_scen.specs.Accepted.{IsAccepted};
ghost use Rattle.nc_rules.specs.Lines.{words, tail, buffer_lines, left_line, left_lines, end_line};
ghost use Rattle.nc_rules.specs.View.{bytes_of};

use nc_num::{HartNo, NoMemory, Span};
use nc_scen::Scenario;
use nc_world::World;
use std::alloc::{AllocError, Global};

/// Splits a span into the part that lies in its first block, and the rest.
fn split(span: Span, size: u32) -> (Span, Span)
    requires size { IsBlockSize size }
    requires some { 0 < span.len }
    requires ends { span.at + span.len < 2 ^ 32 }
    ensures first { result.0.at ≡ span.at }
    ensures some { 0 < result.0.len }
    ensures block { result.0.at % size + result.0.len ≤ size }
    ensures rest { result.1.at ≡ span.at + result.0.len }
    ensures whole { result.0.len + result.1.len ≡ span.len }
{
    let Span { at, len } = span;
    let count = len.min(size - at % size);
    let first = Span { at, len: count };
    let rest = Span {
        at: at + count,
        len: len - count,
    };
    (first, rest)
}

/// Returns the bytes of a range: those of the caches, else memory's.
fn bytes_of(alloc: Global, w: &World, size: u32, span: Span) -> Result<Vec<u8>, NoMemory>
    requires size { w.now.state.machine.size ≡ size }
    requires sized { IsBlockSize size }
    requires inside { span.at + span.len ≤ length w.now.state.machine.cache.ram }
    requires small { length w.now.state.machine.cache.ram ≤ 1048576 }
    ensures { IfOk result (λ v. v.items ≡ bytes_of w.now.state.machine span) }
{
    let mut bytes = Vec::with_capacity(alloc, span.len as usize)?;
    let mut rest = span;
    while 0 < rest.len {
        let (part, behind) = split(rest, size);
        bytes.extend_from_slice(w.bytes(part).as_slice())?;
        rest = behind;
    }
    Ok(bytes)
}

fn put_buffer(
    alloc: Global,
    text: &mut String,
    number: usize,
    bytes: &[u8],
) -> Result<(), AllocError>
    ensures { OnOk result (string_bytes text.new ≡ string_bytes text.old
        ++ words (codes "buf" ∷ decimal number ∷ encode_lower bytes.now ∷ [])) }
{
    let shown = hex::encode(alloc, bytes)?;
    write!(text, "buf {number} {shown}\n")
}

/// Writes the lines of the buffers.
fn put_buffers(alloc: Global, text: &mut String, sc: &Scenario, w: &World) -> Result<(), NoMemory>
    requires accepted { IsAccepted sc.now }
    requires size { w.now.state.machine.size ≡ sc.now.block_size }
    requires ram { length w.now.state.machine.cache.ram ≡ sc.now.ram }
    ensures { OnOk result (string_bytes text.new ≡ string_bytes text.old ++ buffer_lines w.now.state 0 sc.now.buffers) }
{
    for (i, b) in sc.buffers.as_slice().iter().enumerate() {
        let bytes = bytes_of(alloc, w, sc.block_size, b.span)?;
        put_buffer(alloc, text, i, &bytes)?;
    }
    Ok(())
}

fn put_left(text: &mut String, h: u8, op: Option<u32>) -> Result<(), AllocError>
    ensures { OnOk result (string_bytes text.new ≡ string_bytes text.old ++ left_line h op) }
{
    match op {
        Some(n) => write!(text, "left {h} {n}\n"),
        None => Ok(()),
    }
}

/// Writes a line for each script that is not at its end.
fn put_lefts(text: &mut String, w: &World) -> Result<(), AllocError>
    ensures { OnOk result (string_bytes text.new ≡ string_bytes text.old ++ left_lines 0 w.now.state.drivers) }
{
    for h in 0..w.harts() {
        put_left(text, h, w.left(HartNo(h)))?;
    }
    Ok(())
}

fn put_end(text: &mut String, w: &World) -> Result<(), AllocError>
    ensures { OnOk result (string_bytes text.new ≡ string_bytes text.old ++ end_line w.now.state) }
{
    let events = w.events();
    let touches = w.touches();
    write!(text, "end events {events} touches {touches}\n")
}

/// Returns the lines after the events: those of the buffers, those of the scripts that are not at their end, and the
/// counts. The world is the state of a run of the scenario.
///
/// # Errors
///
/// `NoMemory` where memory runs out.
#[tactic(auto, unfolding(nc_rules::specs::Lines::tail))]
pub fn tail(alloc: Global, sc: &Scenario, w: &World) -> Result<Vec<u8>, NoMemory>
    requires accepted { IsAccepted sc.now }
    requires size { w.now.state.machine.size ≡ sc.now.block_size }
    requires ram { length w.now.state.machine.cache.ram ≡ sc.now.ram }
    ensures { IfOk result (λ v. v.items ≡ tail sc.now w.now.state) }
{
    let mut text = String::new(alloc);
    put_buffers(alloc, &mut text, sc, w)?;
    put_lefts(&mut text, w)?;
    put_end(&mut text, w)?;
    Ok(text.into_bytes())
}
