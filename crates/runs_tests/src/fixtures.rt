//! Fixtures: scenarios, and the reports that are due for them, in which a block is its first bytes and zeros.

use std::alloc::{AllocError, Global};

/// One hart with an empty script, one buffer, the empty schedule.
pub const EMPTY_SCRIPT: &[u8] = br#"{
  "version": 1,
  "ram": 4096,
  "harts": [{"mode": "S", "menvcfg": 0, "senvcfg": 0, "script": []}],
  "buffers": [{"at": 0, "len": 2, "fill": 7, "step": 1, "owner": 0}],
  "schedule": []
}"#;

/// Two harts store into one block, each into a buffer of its own, and each evicts it.
pub const FALSE_SHARING: &[u8] = br#"{
  "version": 1,
  "ram": 65536,
  "harts": [
    {"mode": "S", "menvcfg": 4611686018427388144, "senvcfg": 240, "script": [["st", "b0", 0, "aa"]]},
    {"mode": "S", "menvcfg": 4611686018427388144, "senvcfg": 240, "script": [["st", "b1", 0, "bb"]]}
  ],
  "buffers": [
    {"at": 0, "len": 1, "fill": 0, "step": 0, "owner": 0},
    {"at": 1, "len": 1, "fill": 0, "step": 0, "owner": 1}
  ],
  "slots": {"at": 32768, "count": 1},
  "pool": {"at": 49152, "pages": 2},
  "schedule": ["i0", "i1", "d0.0", "e0.0", "d1.0", "e1.0"],
  "finish": false
}"#;

/// One hart hands a buffer of two blocks over while its stores are queued; the other takes it and loads.
pub const HAND_WITH_STORES_QUEUED: &[u8] = br#"{
  "version": 1,
  "ram": 65536,
  "harts": [
    {"mode": "S", "menvcfg": 4611686018427388144, "senvcfg": 240,
     "script": [["st", "b0", 0, "11"], ["st", "b0", 64, "22"], ["hand", 0, 1]]},
    {"mode": "S", "menvcfg": 4611686018427388144, "senvcfg": 240,
     "script": [["take", 0], ["ld", "b0", 0, 1]]}
  ],
  "buffers": [{"at": 0, "len": 65, "fill": 0, "step": 0, "owner": 0}],
  "slots": {"at": 32768, "count": 1},
  "pool": {"at": 49152, "pages": 2},
  "schedule": [
    "i0", "i0", "i0", "i0", "i0", "d0.3", "d0.1", "i1", "d0.0", "d0.0", "d0.0", "i1", "i1"
  ],
  "finish": false
}"#;

/// Returns the digits of a block of 64 bytes: the first ones are these, the others zeros.
fn block(alloc: Global, first: &str) -> Result<String, AllocError> {
    let mut digits = String::from_str(alloc, first)?;
    for _ in first.len()..128 {
        digits.push_str("0")?;
    }
    Ok(digits)
}

/// Returns the report that is due for `FALSE_SHARING`.
pub fn false_sharing_report(alloc: Global) -> Result<String, AllocError> {
    let zeros = block(alloc, "")?;
    let first = block(alloc, "aa")?;
    let both = block(alloc, "aabb")?;
    let report = format!(in alloc;
        "e i0
st 0 000000 aa
e i1
st 1 000001 bb
e d0.0
dr 0 000000 aa
own 0 000000 mem {zeros}
e e0.0
wb 0 000000 {first}
drop 0 000000
e d1.0
dr 1 000001 bb
own 1 000000 mem {first}
e e1.0
wb 1 000000 {both}
drop 1 000000
buf 0 aa
buf 1 bb
end events 6 touches 0
"
    )?;
    Ok(report)
}

/// Returns the report that is due for `HAND_WITH_STORES_QUEUED`.
pub fn hand_with_stores_queued_report(alloc: Global) -> Result<String, AllocError> {
    let zeros = block(alloc, "")?;
    let first = block(alloc, "11")?;
    let report = format!(in alloc;
        "e i0
st 0 000000 11
e i0
st 0 000040 22
e i0
ow 000000 65 passing 0 1
e i0
mark 0 1 4
e i0
io 0 mail 0 1
ans 0 2 handed
e d0.1
dr 0 000040 22
own 0 000040 mem {zeros}
e d0.0
dr 0 000000 11
own 0 000000 mem {zeros}
e d0.0
dr 0 mark
e d0.0
dr 0 mail 0 1
e i1
ow 000000 65 thread 1
ans 1 0 took
e i1
wb 0 000000 {first}
fill 1 000000 hart 0
ld 1 000000 11
buf 0 {first}22
end events 11 touches 0
"
    )?;
    Ok(report)
}

/// Makes a command line of one word.
pub fn words(alloc: Global, word: &str) -> Result<Vec<String>, AllocError> {
    let mut words = Vec::new(alloc);
    words.push(String::from_str(alloc, word)?)?;
    Ok(words)
}
