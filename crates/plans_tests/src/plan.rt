//! What no clause says: which operations a mapping needs, by registers worked by hand, and that a list is copied.

use nc_env::{CboOp, Field, Illegal, Mode};
use nc_num::Dir;
use nc_plan::{CboOff, Effects, SegList, Segment, effects_of, needs};

#[test]
fn mappings_need_their_operations(rt: HostRuntime) {
    let all = effects_of(Mode::U, 240, 208);
    let known = Effects {
        clean: Ok(CboOp::Clean),
        flush: Ok(CboOp::Flush),
        inval: Ok(CboOp::Flush),
        zero: Ok(CboOp::Zero),
    };
    assert_eq!(rt; all, known);
    assert_eq!(rt; needs(&all, Dir::FromDev), Ok(()));
    let no_inval = effects_of(Mode::S, 192, 0);
    assert_eq!(rt; no_inval.inval, Err(Illegal(Field::MCbie)));
    assert_eq!(rt; needs(&no_inval, Dir::ToDev), Ok(()));
    assert_eq!(rt; needs(&no_inval, Dir::Both), Err(CboOff(Field::MCbie)));
    let nothing = effects_of(Mode::U, 240, 0);
    assert_eq!(rt; needs(&nothing, Dir::ToDev), Err(CboOff(Field::SCbcfe)));
    assert_eq!(rt; needs(&nothing, Dir::FromDev), Err(CboOff(Field::SCbcfe)));
}

#[test]
fn segments_are_copied(rt: HostRuntime) {
    let two = [
        Segment { bus: 4096, len: 64 },
        Segment { bus: 8192, len: 3 },
    ];
    let list = SegList::of(&two);
    assert_eq!(rt; list.as_slice(), two.as_slice());
    assert!(rt; list == SegList::of(&two));
    assert!(rt; list != SegList::of(&two[..1]));
}
