//! What no clause says: that the table is the standard's, by values worked by hand. 240 enables everything, 208 has
//! invalidates performed as flushes, 192 forbids invalidates, 176 cleans and flushes, 112 zeros.

use nc_env::{CboOp, Field, Illegal, Mode, decide};

#[test]
fn enables_as_the_standard_has_them(rt: HostRuntime) {
    assert_eq!(rt; decide(Mode::U, 240, 208, CboOp::Inval), Ok(CboOp::Flush));
    assert_eq!(rt;
        decide(Mode::U, 240, 192, CboOp::Inval),
        Err(Illegal(Field::SCbie))
    );
    assert_eq!(rt; decide(Mode::U, 208, 240, CboOp::Inval), Ok(CboOp::Flush));
    assert_eq!(rt;
        decide(Mode::U, 192, 192, CboOp::Inval),
        Err(Illegal(Field::MCbie))
    );
    assert_eq!(rt; decide(Mode::U, 240, 240, CboOp::Inval), Ok(CboOp::Inval));
    assert_eq!(rt;
        decide(Mode::U, 240, 176, CboOp::Clean),
        Err(Illegal(Field::SCbcfe))
    );
    assert_eq!(rt;
        decide(Mode::U, 240, 112, CboOp::Zero),
        Err(Illegal(Field::SCbze))
    );
    assert_eq!(rt; decide(Mode::S, 240, 0, CboOp::Inval), Ok(CboOp::Inval));
    assert_eq!(rt; decide(Mode::S, 208, 240, CboOp::Inval), Ok(CboOp::Flush));
    assert_eq!(rt;
        decide(Mode::S, 176, 240, CboOp::Flush),
        Err(Illegal(Field::MCbcfe))
    );
    assert_eq!(rt;
        decide(Mode::S, 112, 240, CboOp::Zero),
        Err(Illegal(Field::MCbze))
    );
    assert_eq!(rt; decide(Mode::S, 112, 240, CboOp::Clean), Ok(CboOp::Clean));
    assert_eq!(rt; decide(Mode::M, 0, 0, CboOp::Inval), Ok(CboOp::Inval));
    assert_eq!(rt; decide(Mode::M, 0, 0, CboOp::Zero), Ok(CboOp::Zero));
}
