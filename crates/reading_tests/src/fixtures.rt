//! Fixtures: the members of a scenario, and others for the same keys.

/// The members of a good scenario.
pub const GOOD: &str = r#"
  "version": 1,
  "ram": 8192,
  "harts": [{"mode": "S", "menvcfg": 0, "senvcfg": 0, "script": []}],
  "buffers": [{"at": 0, "len": 2, "fill": 7, "step": 1, "owner": 0}],
  "schedule": []"#;

/// Members that come after the good ones: the last of two members of a key is read.
pub const OVERRIDES: &str = r#"
  "version": 2,
  "block": 32,
  "zero": 128,
  "fences": "light",
  "harts": [{"mode": "U", "menvcfg": 7, "senvcfg": 8, "script": [["ld", "b0", 3, 4]]}],
  "schedule": ["g0"],
  "finish": false,
  "limit": 9
"#;
