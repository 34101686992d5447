//! What no clause says: that a call can succeed, and what memory has after a few writes.

use nc_mem::Ram;
use nc_num::{NoMemory, Span};

#[test]
fn written_and_read(rt: HostRuntime) -> Result<(), NoMemory> {
    let mut ram = Ram::new(rt.alloc(), 256)?;
    assert_eq!(rt; ram.len(), 256);
    assert_eq!(rt;
        ram.read(Span { at: 254, len: 2 }).as_slice(),
        [0, 0].as_slice()
    );
    ram.write(Span { at: 250, len: 3 }, b"\x01\x02\x03");
    assert_eq!(rt; ram.len(), 256);
    let read = ram.read(Span { at: 249, len: 5 });
    assert_eq!(rt; read.as_slice(), [0, 1, 2, 3, 0].as_slice());
    assert_eq!(rt;
        ram.read(Span { at: 0, len: 128 }).as_slice(),
        [0; 128].as_slice()
    );
    assert_eq!(rt;
        ram.read(Span { at: 256, len: 0 }).as_slice(),
        [].as_slice()
    );
    Ok(())
}
