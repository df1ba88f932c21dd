//! Scripts of events.

use crate::tests::drive::driven::{drive, joined};
use crate::tests::drive::frames::{
    ATTR_REPLY, GETATTR, INIT, INIT_REPLY, NOTIFICATION, OLDER_REPLY,
};
use fw_drive::Form;
use std::test::Fail;

#[test]
fn each_frame_is_printed(rt: HostRuntime) -> Result<(), Fail> {
    let script = "mount 0 0\nread p 0\nwrite\ncall stat /\nread p 0\nwrite\n";
    let driven = drive(rt.alloc(), Form::Events, script, &[INIT_REPLY, ATTR_REPLY])?;
    let printed =
        "mounted\nread 2 INIT 56\nwritten 2 0\ncall 1\nread 4 GETATTR 56\nwritten 4 0\nanswer 1 0 dir 1 0 2\nkernel\n";
    let sent = joined(rt.alloc(), &[INIT, GETATTR])?;
    assert_eq!(rt; driven.out.as_slice(), printed.as_bytes());
    assert_eq!(rt; driven.sent.as_slice(), sent.as_slice());
    assert_eq!(rt; driven.status, 0);
    Ok(())
}

#[test]
fn what_is_wrong_is_said(rt: HostRuntime) -> Result<(), Fail> {
    // A notification before the reply to INIT of 7.28, which comes twice; a reply to nothing; and then the server ends.
    let script = "mount 0 0\nread p 0\nwrite\nwrite\nwrite\nwrite\n";
    let frames = [NOTIFICATION, OLDER_REPLY, OLDER_REPLY, ATTR_REPLY];
    let driven = drive(rt.alloc(), Form::Events, script, &frames)?;
    let printed =
        "mounted\nread 2 INIT 56\nnotification 3 40\nwritten 2 0\n7.28 taken as 7.31\nwritten 2 2\nsecond reply: INIT 2\nwritten 4 2\nreply to nothing: 4\nserver ended\n";
    assert_eq!(rt; driven.out.as_slice(), printed.as_bytes());
    assert_eq!(rt; driven.status, 4);
    Ok(())
}

#[test]
fn a_bad_line_runs_nothing(rt: HostRuntime) -> Result<(), Fail> {
    let driven = drive(rt.alloc(), Form::Events, "mount 0 0\n\ntake 0\n", &[])?;
    assert_eq!(rt;
        driven.faults.as_slice(),
        "line 3: unknown event\n".as_bytes()
    );
    assert_eq!(rt; driven.out.len(), 0);
    assert_eq!(rt; driven.sent.len(), 0);
    assert_eq!(rt; driven.status, 1);
    Ok(())
}
