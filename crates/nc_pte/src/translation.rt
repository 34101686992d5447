//! The fields of a leaf PTE word, its memory type and the place that it gives.

ghost use Rattle.std.specs.Prelude.{◌≡◌, ◌/◌, ◌%◌, ◌+◌, ◌*◌, ◌<◌, ◌↔◌, IsTrue, length, slice_index};
ghost use Rattle.nc_pte.specs.Words.{IsPteWord, pbmt_of, place_at};
ghost use Rattle.nc_pte.specs.Translation.{mem_type, translated};
ghost use Rattle.nc_pte.specs.Laws.{EachPlaceLiesInRam, WordsAreThose};

use nc_num::{MemType, Place};

/// The page number of the first byte of RAM, whose bus address is 0x8000_0000.
const FIRST_PAGE: u64 = 0x8_0000;

/// The mask of the page number of a leaf PTE, bits 53:10, once it is shifted down.
const PAGE_BITS: u64 = 0xfff_ffff_ffff;

/// The fault of a translation that was refused (RISC-V Privileged Architecture, Svpbmt).
#[derive(Clone, Copy, Debug, PartialEq, Eq)]
pub struct PageFault {
    /// The virtual address.
    pub va: u32,
    /// The PBMT field of its page, 1 to 3.
    pub bits: u8,
}

/// Returns the memory type of a page by its PBMT field, or None where an access to it faults.
fn type_of(pbmte: bool, bits: u8) -> Option<MemType>
    ensures { result ≡ mem_type pbmte bits }
{
    match (pbmte, bits) {
        (_, 0) => Some(MemType::Pma),
        (true, 1) => Some(MemType::Nc),
        (true, 2) => Some(MemType::Io),
        _ => None,
    }
}

/// Returns the place of RAM that a valid word gives for an address in its page.
fn place_of(word: u64, va: u32) -> Place
    requires { IsPteWord 1048576 word }
    ensures { result.0 ≡ place_at word va }
{
    let page = (word >> 10 & PAGE_BITS) - FIRST_PAGE;
    Place(page as u32 * 4096 + va % 4096)
}

/// Returns the memory type and the place of a virtual address, by the word of its page in the table.
///
/// `pbmte` is the PBMTE bit of `menvcfg`. Pages have 4,096 bytes; the table is this project's own. The caller shows
/// that the page has a word, which is valid for a RAM of 1,048,576 bytes.
///
/// # Errors
///
/// `PageFault` where the PBMT field of the page is the reserved value 3, or is not 0 while `pbmte` is clear (RISC-V
/// Privileged Architecture, Svpbmt).
pub fn translate(pbmte: bool, table: &[u64], va: u32) -> Result<(MemType, Place), PageFault>
    requires mapped { va / 4096 < length table.now }
    requires valid { IsPteWord 1048576 (slice_index table.now (va / 4096)) }
    ensures { result ≡ translated pbmte (slice_index table.now (va / 4096)) va }
{
    let word = table[(va / 4096) as usize];
    let bits = (word >> 61 & 3) as u8;
    match type_of(pbmte, bits) {
        Some(mem_type) => Ok((mem_type, place_of(word, va))),
        None => Err(PageFault { va, bits }),
    }
}

/// Returns whether a word is a leaf PTE of this project's profile for a RAM of `ram` bytes: valid, readable, writable,
/// accessed and dirty, with no other flag and no reserved bit, and with a page that lies in RAM.
pub fn is_pte_word(ram: u32, word: u64) -> bool
    ensures { IsTrue result ↔ IsPteWord ram word }
{
    let page = word >> 10 & PAGE_BITS;
    word & 0x3ff == 0xc7
        && word >> 54 & 0x7f == 0
        && word >> 63 == 0
        && page >= FIRST_PAGE
        && page - FIRST_PAGE < u64::from(ram / 4096)
}

/// Proves that each place that a word gives lies in the RAM for which the word is valid.
#[tactic(auto, using(crate::proofs::InRam::in_ram))]
pub fn places_lie_in_ram()
    ensures { EachPlaceLiesInRam }
{}

/// Proves that the valid words are those of the pages of RAM with each of the four values of PBMT, and no others.
#[tactic(auto, using(crate::proofs::PteWords::words_are_those))]
pub fn valid_words()
    ensures { WordsAreThose }
{}
