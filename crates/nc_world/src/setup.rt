//! The parts of a world at the start of a scenario.

ghost use Rattle.std.specs.Prelude.{◌≡◌, ◌≤◌, ◌<◌, ◌+◌, [], length, map, All, IfOk};
ghost use Rattle.std.specs.List.{range_with_len};
ghost use Rattle.nc_scen.specs.Accepted.{IsAccepted};
ghost use Rattle.nc_rules.specs.Start.{first_driver};
ghost use Rattle.nc_rules.specs.World.{first_owners, owned_by_harts, hart};

use nc_driver::Driver;
use nc_model::Owner;
use nc_num::{HartNo, NoMemory};
use nc_own::Book;
use nc_scen::{BufferSpec, Scenario};
use std::alloc::Global;

/// Makes a driver for each hart.
pub(crate) fn drivers_of(alloc: Global, sc: &Scenario) -> Result<Vec<Driver>, NoMemory>
    requires { IsAccepted sc.now }
    ensures { IfOk result (λ v. v.items ≡ map (λ h. first_driver sc.now (hart h)) (range_with_len 0 (length sc.now.harts))) }
{
    let harts = sc.harts.as_slice().len() as u8;
    let mut drivers = Vec::new(alloc);
    for h in 0..harts {
        drivers.push(Driver::new(alloc, HartNo(h), sc)?)?;
    }
    Ok(drivers)
}

/// Gives each buffer's bytes to its hart.
fn own_buffers(book: &mut Book, buffers: &[BufferSpec])
    requires room { length buffers.now ≤ book.old.spare }
    requires inside { All (λ b. (0 < b.span.len) × (b.span.at + b.span.len ≤ length book.old.owners)) buffers.now }
    ensures owners { book.new.owners ≡ owned_by_harts book.old.owners buffers.now }
    ensures grants { book.new.grants ≡ book.old.grants }
{
    for b in buffers {
        book.transfer(b.span, Owner::Thread(b.owner));
    }
}

/// Makes the book in which the buffers are their harts', and all other bytes are the pool's.
#[tactic(auto, unfolding(nc_rules::specs::World::first_owners))]
pub(crate) fn book_of(alloc: Global, sc: &Scenario) -> Result<Book, NoMemory>
    requires { IsAccepted sc.now }
    ensures owners { IfOk result (λ b. b.owners ≡ first_owners sc.now) }
    ensures grants { IfOk result (λ b. b.grants ≡ []) }
{
    let buffers = sc.buffers.as_slice();
    let mut book = Book::new(alloc, sc.ram)?;
    book.reserve(buffers.len() as u32)?;
    own_buffers(&mut book, buffers);
    Ok(book)
}
