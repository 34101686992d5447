//! What no clause says: the pieces and blocks of a few spans, worked by hand.

use nc_num::{Block, Bytes, Place, Span, block_of, first_piece, pieces_tile};

#[test]
fn first_pieces_and_blocks(rt: HostRuntime) {
    pieces_tile();
    let table = [
        (0, 9, 8),
        (8, 7, 4),
        (12, 3, 2),
        (14, 1, 1),
        (13, 8, 1),
        (60, 100, 4),
        (4096, 1, 1),
    ];
    for (at, len, taken) in table {
        let piece = first_piece(Span { at, len });
        assert_eq!(rt; piece, Span { at, len: taken }, "at {at}");
    }
    assert_eq!(rt; block_of(Place(127), 32), Block(3));
    assert_eq!(rt; block_of(Place(127), 64), Block(1));
    assert_eq!(rt; block_of(Place(127), 128), Block(0));
    assert_eq!(rt; block_of(Place(128), 128), Block(1));
}

#[test]
fn bytes_are_copied(rt: HostRuntime) {
    let some = Bytes::of(b"\x07\x08");
    let other = some;
    assert_eq!(rt; some.as_slice(), b"\x07\x08".as_slice());
    assert!(rt; some == other);
    assert!(rt; some != Bytes::of(b"\x07\x08\x00"));
}
