//! Fixtures: scenarios without the end of their text, the parts of what a run wrote, and the run of its history again.

use nc_io::{MemSink, MemSource};
use nc_top::dmasim;
use std::alloc::{AllocError, Global};

/// Two harts store into one block, each into a buffer of its own. The schedule comes after this text.
pub const FALSE_SHARING: &str = r#"{
  "version": 1,
  "ram": 65536,
  "harts": [
    {"mode": "S", "menvcfg": 4611686018427388144, "senvcfg": 240, "script": [["st", "b0", 0, "aa"]]},
    {"mode": "S", "menvcfg": 4611686018427388144, "senvcfg": 240, "script": [["st", "b1", 0, "bb"]]}
  ],
  "buffers": [
    {"at": 0, "len": 1, "fill": 0, "step": 0, "owner": 0},
    {"at": 1, "len": 1, "fill": 0, "step": 0, "owner": 1}
  ],
  "slots": {"at": 32768, "count": 1},
  "pool": {"at": 49152, "pages": 2}"#;

/// The scenario of `FALSE_SHARING` in machine mode over 4,096 bytes of RAM, with a limit.
pub const TWO_DRIVERS: &str = r#"{
  "version": 1,
  "ram": 4096,
  "harts": [
    {"mode": "M", "menvcfg": 0, "senvcfg": 0, "script": [["st", "b0", 0, "aa"]]},
    {"mode": "M", "menvcfg": 0, "senvcfg": 0, "script": [["st", "b1", 0, "bb"]]}
  ],
  "buffers": [
    {"at": 0, "len": 1, "fill": 0, "step": 0, "owner": 0},
    {"at": 1, "len": 1, "fill": 0, "step": 0, "owner": 1}
  ],
  "limit": 400"#;

/// One hart maps a buffer for the channels, and takes it back.
pub const MAPPING: &str = r#"{
  "version": 2,
  "block": 32,
  "zero": 32,
  "ram": 4096,
  "harts": [
    {"mode": "M", "menvcfg": 0, "senvcfg": 0, "script": [["map", 1, 0, 0, 32, 1, 0], ["unmap", 1]]}
  ],
  "buffers": [{"at": 0, "len": 32, "fill": 17, "step": 0, "owner": 0}],
  "limit": 400"#;

/// One hart with one store, and no turn for any thread: an eighth of the limit is none. So finishing rounds alone make
/// the history, the same at each run.
pub const ROUNDS_ALONE: &str = r#"{
  "version": 1,
  "ram": 4096,
  "harts": [{"mode": "M", "menvcfg": 0, "senvcfg": 0, "script": [["st", "b0", 0, "aa"]]}],
  "buffers": [{"at": 0, "len": 1, "fill": 0, "step": 0, "owner": 0}],
  "limit": 7"#;

/// A scenario with no hart is refused.
pub const NO_HART: &str = r#"{"version": 1, "ram": 4096, "harts": [], "buffers": []"#;

/// Two harts map a bounced range each. The slots come after this text.
const BOUNCED_RANGES: &str = r#"{
  "version": 1,
  "ram": 65536,
  "harts": [
    {"mode": "S", "menvcfg": 4611686018427388144, "senvcfg": 240, "script": [["map", 1, 0, 0, 8, 2, 0]]},
    {"mode": "S", "menvcfg": 4611686018427388144, "senvcfg": 240, "script": [["map", 1, 1, 0, 8, 2, 1]]}
  ],
  "buffers": [
    {"at": 4097, "len": 8, "fill": 0, "step": 0, "owner": 0},
    {"at": 4361, "len": 8, "fill": 0, "step": 0, "owner": 1}
  ],
  "#;

/// Two slots for `BOUNCED_RANGES`.
pub const TWO_SLOTS: &str =
    r#""slots": {"at": 32768, "count": 2}, "pool": {"at": 49152, "pages": 2}"#;

/// One slot for `BOUNCED_RANGES`.
pub const ONE_SLOT: &str =
    r#""slots": {"at": 32768, "count": 1}, "pool": {"at": 49152, "pages": 2}"#;

/// One slot for `BOUNCED_RANGES`, with a limit.
pub const SEARCH: &str = r#""slots": {"at": 32768, "count": 1}, "limit": 400"#;

/// Makes the scenario of two harts that map a bounced range each, over these slots.
pub fn bounced_over(alloc: Global, slots: &str) -> Result<String, AllocError> {
    let mut scenario = String::from_str(alloc, BOUNCED_RANGES)?;
    scenario.push_str(slots)?;
    Ok(scenario)
}

/// Returns the text of a scenario with an empty schedule.
pub fn whole(alloc: Global, scenario: &str) -> Result<Vec<u8>, AllocError> {
    let mut input = String::from_str(alloc, scenario)?;
    input.push_str(",\"schedule\":[]}")?;
    Ok(input.into_bytes())
}

/// Returns what is due for `ROUNDS_ALONE`: seven events, of which two are done.
pub fn rounds_alone_text(alloc: Global) -> Result<String, AllocError> {
    let zeros = "0".repeat(alloc, 128)?;
    let text = format!(in alloc;
        "history 7
i0
d0.0
r0
w0
r1
w1
r2
e i0
st 0 000000 aa
e d0.0
dr 0 000000 aa
own 0 000000 mem {zeros}
buf 0 aa
end events 2 touches 0
"
    )?;
    Ok(text)
}

/// Makes a command line of one word.
pub fn words(alloc: Global, word: &str) -> Result<Vec<String>, AllocError> {
    let mut words = Vec::new(alloc);
    words.push(String::from_str(alloc, word)?)?;
    Ok(words)
}

/// What a run in threads wrote: its history, a token each, and then the report.
#[derive(Drop)]
pub struct Told {
    /// The status.
    pub status: u8,
    /// The events, a token each.
    pub tokens: Vec<String>,
    /// The lines of the report.
    pub report: String,
}

/// Parses what a run wrote into its history and its report.
pub fn told_of(alloc: Global, status: u8, text: &str) -> Result<Told, AllocError> {
    let mut tokens = Vec::new(alloc);
    let mut report = String::new(alloc);
    let mut left = 0u64;
    for (i, line) in text.lines().enumerate() {
        if i == 0 {
            if let Some(count) = line.strip_prefix("history ") {
                left = count.parse::<u64>().unwrap_or(0);
            }
        } else if 0 < left {
            left -= 1;
            tokens.push(String::from_str(alloc, line)?)?;
        } else {
            report.push_str(line)?;
            report.push_str("\n")?;
        }
    }
    Ok(Told {
        status,
        tokens,
        report,
    })
}

/// Runs a scenario by a schedule of these tokens, with no finishing rounds.
pub fn again(
    alloc: Global,
    scenario: &str,
    tokens: &[String],
) -> Result<(u8, Vec<u8>), AllocError> {
    let mut input = String::from_str(alloc, scenario)?;
    input.push_str(",\"schedule\":[")?;
    for (i, token) in tokens.iter().enumerate() {
        if i != 0 {
            input.push_str(",")?;
        }
        input.push_str("\"")?;
        input.push_str(token.as_str())?;
        input.push_str("\"")?;
    }
    input.push_str("],\"finish\":false}")?;
    let mut src = MemSource::new(input.into_bytes(), 4096, Vec::new(alloc));
    let mut out = MemSink::new(alloc, Vec::new(alloc));
    let status = dmasim(alloc, &words(alloc, "run")?, &mut src, &mut out);
    Ok((status, Vec::from_slice(alloc, out.bytes())?))
}
