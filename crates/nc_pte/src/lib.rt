//! Translation of virtual addresses by a table of leaf PTE words, with the memory type of each page.
//!
//! A machine of this project walks no page tables: virtual page `i` is mapped by word `i` of a flat table, in every
//! mode. The meaning of a word is that of the RISC-V Privileged Architecture (Sv39 leaf fields, and Svpbmt for the
//! memory type). The contract for the crates above: `translate` is `translated`, the table by cases of
//! `specs/Translation`, and a place that it gives lies in the RAM for which the word is valid.
#![tactic(auto)]

mod translation;

pub use translation::{PageFault, is_pte_word, places_lie_in_ram, translate, valid_words};
