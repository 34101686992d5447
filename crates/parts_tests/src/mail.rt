//! What no clause says: that memory for boxes can be had, and a message on its way, by hand.

use nc_mail::Mail;
use nc_num::{HartNo, NoMemory};

#[test]
fn one_message(rt: HostRuntime) -> Result<(), NoMemory> {
    let mut mail = Mail::new(rt.alloc(), 2)?;
    assert_eq!(rt; mail.waits(0), None);
    mail.post(1, HartNo(3));
    assert_eq!(rt; mail.waits(1), Some(HartNo(3)));
    assert_eq!(rt; mail.waits(0), None);
    assert!(rt; !mail.take(1, HartNo(2)));
    assert!(rt; !mail.take(0, HartNo(3)));
    mail.post(1, HartNo(0));
    assert!(rt; !mail.take(1, HartNo(3)));
    assert!(rt; mail.take(1, HartNo(0)));
    assert!(rt; !mail.take(1, HartNo(0)));
    assert_eq!(rt; mail.waits(1), None);
    Ok(())
}
