//! What no clause says: the words of four pages with each memory type, worked by hand.

use nc_num::{MemType, Place};
use nc_pte::{PageFault, is_pte_word, places_lie_in_ram, translate, valid_words};

/// The words of pages 0, 1, 7 and 255 of RAM with PBMT 0, 1, 2 and 3: 536871111 + 1024 * p + t * 2 ^ 61.
const TABLE: [u64; 4] = [
    0x0000_0000_2000_00c7,
    0x2000_0000_2000_04c7,
    0x4000_0000_2000_1cc7,
    0x6000_0000_2003_fcc7,
];

#[test]
fn types_by_pbmt(rt: HostRuntime) {
    let fault = |va, bits| Err(PageFault { va, bits });
    let table = [
        (false, 0, Ok((MemType::Pma, Place(0)))),
        (true, 4095, Ok((MemType::Pma, Place(4095)))),
        (false, 4096, fault(4096, 1)),
        (true, 4097, Ok((MemType::Nc, Place(4097)))),
        (false, 8192, fault(8192, 2)),
        (true, 8200, Ok((MemType::Io, Place(28680)))),
        (false, 12288, fault(12288, 3)),
        (true, 12289, fault(12289, 3)),
    ];
    for (pbmte, va, want) in table {
        let page = (va / 4096) as usize;
        assert!(rt; page < TABLE.len() && is_pte_word(1_048_576, TABLE[page]));
        assert_eq!(rt; translate(pbmte, &TABLE, va), want, "at {va}");
    }
}

#[test]
fn words_that_are_refused(rt: HostRuntime) {
    places_lie_in_ram();
    valid_words();
    let refused = [
        0x0000_0000_2000_00c6,
        0x0000_0000_2000_00d7,
        0x0000_0000_2000_01c7,
        0x0040_0000_2000_00c7,
        0x8000_0000_2000_00c7,
        0x0000_0000_1fff_fcc7,
        0x0000_0000_2000_04c7,
    ];
    for word in refused {
        assert!(rt; !is_pte_word(4096, word), "{word}");
    }
    assert!(rt; is_pte_word(8192, 0x0000_0000_2000_04c7));
}
