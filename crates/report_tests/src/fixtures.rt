//! Fixtures: scenarios, and the world at the start of one.

ghost use Rattle.std.specs.Prelude.{◌≡◌, [], length, IfSome};
ghost use Rattle.nc_scen.specs.Accepted.{IsAccepted};

use nc_scen::{Scenario, read};
use nc_world::World;
use std::alloc::Global;

/// Three harts, of which the first loads a byte, and ten draws.
pub const DRAWN: &str = r#"{
  "version": 1,
  "ram": 4096,
  "harts": [
    {"mode": "S", "menvcfg": 0, "senvcfg": 0, "script": [["ld", "b0", 0, 1]]},
    {"mode": "S", "menvcfg": 0, "senvcfg": 0, "script": []},
    {"mode": "S", "menvcfg": 0, "senvcfg": 0, "script": []}
  ],
  "buffers": [{"at": 0, "len": 1, "fill": 7, "step": 1, "owner": 0}],
  "schedule": {"seed": 17, "events": 10},
  "finish": false
}"#;

/// A hart with no script, and one that stores to a buffer in two blocks.
pub const STORE: &str = r#"{
  "version": 1,
  "ram": 4096,
  "harts": [
    {"mode": "S", "menvcfg": 0, "senvcfg": 0, "script": []},
    {"mode": "S", "menvcfg": 0, "senvcfg": 0, "script": [["st", "b1", 0, "11"]]}
  ],
  "buffers": [
    {"at": 0, "len": 2, "fill": 7, "step": 1, "owner": 0},
    {"at": 126, "len": 4, "fill": 254, "step": 1, "owner": 1}
  ],
  "schedule": []
}"#;

/// Reads a scenario and makes the world at its start; None where the text is refused or memory runs out.
pub fn started(alloc: Global, text: &str) -> Option<(Scenario, World)>
    ensures accepted { IfSome result (λ p. IsAccepted p.0) }
    ensures harts { IfSome result (λ p. length p.1.state.machine.harts ≡ length p.0.harts) }
    ensures size { IfSome result (λ p. p.1.state.machine.size ≡ p.0.block_size) }
    ensures ram { IfSome result (λ p. length p.1.state.machine.cache.ram ≡ p.0.ram) }
    ensures records { IfSome result (λ p. p.1.records ≡ []) }
{
    let Ok(sc) = read(alloc, text.as_bytes()) else {
        return None;
    };
    let Ok(w) = World::new(alloc, &sc) else {
        return None;
    };
    Some((sc, w))
}
