//! The scenario of a number.

ghost use Rattle.std.specs.Prelude.{◌≡◌, ◌<◌, ◌≤◌, ◌++◌, IfOk, OnOk};
ghost use Rattle.nc_scen.specs.Accepted.{IsAccepted};
ghost use Rattle.nc_gen.specs.Generator.{harts, buffer, buffers, copied, before, round, script, hart, hart_list, scenario};

use nc_env::Mode;
use nc_num::{ChanNo, HartNo, NoMemory, Span};
use nc_scen::{BufferSpec, BufferSpecs, HartSpec, HartSpecs, Op, Ops, Plan, Scenario, Spot, Words};
use std::alloc::Global;

/// The bytes of RAM.
const RAM: u32 = 262_144;

/// Returns how many harts the scenario of number n has, 2 to 4.
fn harts_of(n: u64) -> u8
    ensures value { result ≡ harts n }
    ensures some { 2 ≤ result }
    ensures few { result ≤ 4 }
{
    2 + (n % 3) as u8
}

/// Returns buffer j of hart h in the scenario of number n.
fn buffer(n: u64, h: u8, j: u8) -> BufferSpec
    requires hart { h < 4 }
    requires four { j < 4 }
    ensures { result ≡ buffer n h j }
{
    let (hart, number) = (u32::from(h), u32::from(j));
    BufferSpec {
        span: Span {
            at: 4096 * (1 + 4 * hart + number) + ((n % 64) as u32 + 3 * number) % 64,
            len: 512 + 64 * number,
        },
        fill: 16 * h + j,
        step: 1,
        owner: HartNo(h),
    }
}

/// Returns the buffers of this many harts.
fn buffers(alloc: Global, n: u64, harts: u8) -> Result<Vec<BufferSpec>, NoMemory>
    requires { harts ≤ 4 }
    ensures { IfOk result (λ v. v.items ≡ buffers n harts) }
{
    Ok(
        (0..4 * harts)
            .map(|i| buffer(n, i / 4, i % 4))
            .collect(alloc)?,
    )
}

/// Returns the operation that copies 512 bytes on a channel, from the start of a buffer to the start of another.
fn copied(chan: u8, src: u8, dst: u8) -> Op
    ensures { result ≡ copied chan src dst }
{
    Op::Copy {
        chan: ChanNo(chan),
        src,
        src_off: 0,
        dst,
        dst_off: 0,
        len: 512,
        cfg: 0x6600_0000,
    }
}

/// Returns the hart that is r positions before hart h in the ring of harts.
fn before(harts: u8, h: u8, r: u8) -> u8
    requires some { 0 < harts }
    requires few { harts ≤ 4 }
    requires there { h < harts }
    requires near { r ≤ 3 }
    ensures value { result ≡ before harts h r }
    ensures there { result < harts }
{
    (h + 3 * harts - r) % harts
}

/// Appends the operations of round r of hart h.
fn put_round(ops: &mut Vec<Op>, harts: u8, h: u8, r: u8) -> Result<(), NoMemory>
    requires some { 0 < harts }
    requires few { harts ≤ 4 }
    requires there { h < harts }
    requires near { r < 3 }
    ensures { OnOk result (ops.new.items ≡ ops.old.items ++ round harts h r) }
{
    let held = 4 * before(harts, h, r) + 3;
    ops.push(copied(h, 4 * h, 4 * h + 1))?;
    ops.push(copied(h, 4 * h + 2, held))?;
    ops.push(Op::Ld {
        spot: Spot::Buffer(4 * h + 1),
        off: 0,
        len: 64,
    })?;
    ops.push(Op::Hand {
        buf: held,
        to: HartNo((h + 1) % harts),
    })?;
    ops.push(Op::Take(4 * before(harts, h, r + 1) + 3))?;
    Ok(())
}

/// Returns the script of hart h: three rounds.
fn script(alloc: Global, harts: u8, h: u8) -> Result<Ops, NoMemory>
    requires some { 0 < harts }
    requires few { harts ≤ 4 }
    requires there { h < harts }
    ensures { IfOk result (λ o. o ≡ script harts h) }
{
    let mut ops = Vec::new(alloc);
    put_round(&mut ops, harts, h, 0)?;
    put_round(&mut ops, harts, h, 1)?;
    put_round(&mut ops, harts, h, 2)?;
    Ok(Ops::new(ops))
}

/// Returns hart h: in supervisor mode, with every cache operation and memory type enabled.
fn hart(alloc: Global, harts: u8, h: u8) -> Result<HartSpec, NoMemory>
    requires some { 0 < harts }
    requires few { harts ≤ 4 }
    requires there { h < harts }
    ensures { IfOk result (λ o. o ≡ hart harts h) }
{
    Ok(HartSpec {
        mode: Mode::S,
        menvcfg: 0x4000_0000_0000_00f0,
        senvcfg: 0xf0,
        script: script(alloc, harts, h)?,
    })
}

/// Returns all harts, in order.
fn hart_list(alloc: Global, harts: u8) -> Result<Vec<HartSpec>, NoMemory>
    requires { harts ≤ 4 }
    ensures { IfOk result (λ v. v.items ≡ hart_list harts) }
{
    let mut list = Vec::new(alloc);
    for h in 0..harts {
        list.push(hart(alloc, harts, h)?)?;
    }
    Ok(list)
}

/// Returns the scenario of number n, which is accepted.
///
/// # Errors
///
/// `NoMemory` where memory runs out.
#[tactic(auto, using(crate::proofs::Accepting::accepted), unfolding(crate::specs::Generator::scenario))]
pub fn scenario(alloc: Global, n: u64) -> Result<Scenario, NoMemory>
    ensures gives { IfOk result (λ sc. sc ≡ scenario n) }
    ensures accepted { IfOk result IsAccepted }
{
    let harts = harts_of(n);
    Ok(Scenario {
        version: 1,
        block_size: 64,
        zero_size: 64,
        light: false,
        ram: RAM,
        harts: HartSpecs::new(hart_list(alloc, harts)?),
        ptes: Words::new(Vec::new(alloc)),
        buffers: BufferSpecs::new(buffers(alloc, n, harts)?),
        slots_at: 131_072,
        slots: 2,
        pool_at: 196_608,
        pages: 2,
        reach: [RAM; 4],
        plan: Plan::Seeded {
            seed: n,
            events: 20_000,
        },
        finish: true,
        limit: 200_000,
    })
}
