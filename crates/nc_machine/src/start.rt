//! The parts of a machine at the start of a scenario.

ghost use Rattle.std.specs.Prelude.{◌≡◌, ◌≤◌, ◌<◌, ◌+◌, ◌*◌, All, length, replicate, IfOk};
ghost use Rattle.nc_num.specs.Memory.{splice};
ghost use Rattle.nc_num.specs.Sizes.{IsBlockSize};
ghost use Rattle.nc_pdma.specs.Channel.{new_channel};
ghost use Rattle.nc_scen.specs.Accepted.{IsAccepted};
ghost use Rattle.nc_rules.specs.Machine.{fresh_hart};
ghost use Rattle.nc_rules.specs.Start.{filled, memory, pattern};

use nc_hart::Hart;
use nc_mem::Ram;
use nc_num::{NoMemory, Span};
use nc_pdma::Channel;
use nc_scen::{BufferSpec, Scenario};
use std::alloc::{AllocError, Global};

/// Makes `count` harts with empty queues, which have loaded nothing.
#[tactic(auto, using(std::proofs::lemmas::List::replicate_more))]
pub(crate) fn fresh_harts(
    alloc: Global,
    count: u8,
    block_size: u32,
) -> Result<Vec<Hart>, AllocError>
    requires { IsBlockSize block_size }
    ensures { IfOk result (λ harts. harts.items ≡ replicate count (fresh_hart block_size)) }
{
    let mut harts = Vec::new(alloc);
    'harts: for _ in 0..count {
        harts.push(Hart::new(block_size))?;
    }
    Ok(harts)
}

/// Makes the four channels, which nobody has claimed.
pub(crate) fn new_channels(alloc: Global) -> Result<Vec<Channel>, NoMemory>
    ensures { IfOk result (λ channels. channels.items ≡ replicate 4 new_channel) }
{
    let channels = vec![in alloc;
        Channel::new(),
        Channel::new(),
        Channel::new(),
        Channel::new(),
    ]?;
    Ok(channels)
}

/// Writes the initial bytes of a buffer.
#[tactic(auto, using(crate::proofs::Starts::splice_none))]
fn fill_buffer(ram: &mut Ram, b: &BufferSpec)
    requires { b.now.span.at + b.now.span.len ≤ length ram.old }
    ensures bytes { ram.new ≡ splice ram.old b.now.span.at (pattern b.now) }
    ensures len { length ram.new ≡ length ram.old }
{
    let _ = ram.len();
    for i in 0..b.span.len {
        let byte = (u64::from(b.fill) + u64::from(i) * u64::from(b.step)) % 256;
        let at = b.span.at + i;
        ram.write(Span { at, len: 1 }, &[byte as u8]);
    }
}

/// Writes the initial bytes of each buffer.
fn fill(ram: &mut Ram, buffers: &[BufferSpec])
    requires { All (λ b. b.span.at + b.span.len ≤ length ram.old) buffers.now }
    ensures { ram.new ≡ filled ram.old buffers.now }
{
    for b in buffers {
        fill_buffer(ram, b);
    }
}

/// Makes the memory at the start of a scenario: the buffers' initial bytes, and 0 elsewhere.
#[tactic(auto, unfolding(nc_rules::specs::Start::memory))]
pub(crate) fn memory(alloc: Global, sc: &Scenario) -> Result<Ram, NoMemory>
    requires { IsAccepted sc.now }
    ensures { IfOk result (λ ram. ram ≡ memory sc.now) }
{
    let mut ram = Ram::new(alloc, sc.ram)?;
    fill(&mut ram, sc.buffers.as_slice());
    Ok(ram)
}
