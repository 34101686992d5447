//! The answer of the command `pool` to some bytes.

ghost use Rattle.std.specs.Prelude.{◌≡◌, Ok};
ghost use Rattle.nc_pieces.specs.Reading.{request_in};
ghost use Rattle.nc_pieces.specs.Serving.{GivesPool, pool_answer, pool_refused_line};

use crate::refused::{PoolFault, PoolRefused};
use crate::request::{Request, read_request};
use crate::serving::Serving;
use nc_dmapool::PoolBad;
use nc_values::{OpFault, ScenFault, value_of};
use std::alloc::Global;

const MOST_BYTES: usize = 8_388_608;

/// Returns the request that the bytes are.
///
/// # Errors
///
/// `Refused` with the first refusal: of length, JSON or form. `NoMemory` where memory runs out.
#[tactic(auto, unfolding(crate::specs::Reading::request_in))]
fn read(alloc: Global, bytes: &[u8]) -> Result<Request, PoolFault>
    ensures { GivesPool (λ r. r) result (request_in bytes.now) }
{
    if bytes.len() > MOST_BYTES {
        return Err(PoolFault::Refused(PoolRefused::TooLong));
    }
    let value = match value_of(alloc, bytes) {
        Ok(value) => value,
        Err(ScenFault::Refused(_)) => return Err(PoolFault::Refused(PoolRefused::NotJson)),
        Err(ScenFault::NoMemory) => return Err(PoolFault::NoMemory),
    };
    match read_request(alloc, &value) {
        Ok(request) => Ok(request),
        Err(OpFault::Wrong(_)) => Err(PoolFault::Refused(PoolRefused::Shape)),
        Err(OpFault::NoMemory) => Err(PoolFault::NoMemory),
    }
}

/// Returns the lines that the command `pool` writes for some bytes. The command and its lines are this project's own.
///
/// # Errors
///
/// `Refused` with the first refusal: of length, JSON, form, size, alignment or boundary. It comes exactly where the
/// definition refuses. `NoMemory` where memory runs out.
pub fn pool_answer(alloc: Global, bytes: &[u8]) -> Result<Vec<u8>, PoolFault>
    ensures { GivesPool (λ v. v.items) result (pool_answer bytes.now) }
{
    let request = read(alloc, bytes)?;
    let mut serving = Serving::new(alloc, &request)?;
    let mut text = String::new(alloc);
    serving.serve_all(&request.ops, &mut text)?;
    Ok(text.into_bytes())
}

/// Returns the line of a refusal, with its line feed.
pub fn pool_refused(refused: PoolRefused) -> &'static [u8]
    ensures { result.now ≡ pool_refused_line refused }
{
    match refused {
        PoolRefused::TooLong => b"refused long\n",
        PoolRefused::NotJson => b"refused json\n",
        PoolRefused::Shape => b"refused shape\n",
        PoolRefused::Pool(PoolBad::Size) => b"refused pool size\n",
        PoolRefused::Pool(PoolBad::Align) => b"refused pool align\n",
        PoolRefused::Pool(PoolBad::Boundary) => b"refused pool boundary\n",
    }
}
