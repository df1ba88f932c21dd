//! Scripts of calls.

use crate::tests::drive::driven::{drive, joined};
use crate::tests::drive::frames::{
    ATTR_REPLY, GETATTR, INIT, INIT_REPLY, LIST_REPLY, OPENDIR, OPENDIR_REPLY, READDIR, RELEASEDIR,
    RELEASEDIR_REPLY,
};
use fw_drive::Form;
use std::test::Fail;

#[test]
fn a_call_is_carried_to_its_answer(rt: HostRuntime) -> Result<(), Fail> {
    let driven = drive(
        rt.alloc(),
        Form::Calls,
        "call stat /\n",
        &[INIT_REPLY, ATTR_REPLY],
    )?;
    let sent = joined(rt.alloc(), &[INIT, GETATTR])?;
    assert_eq!(rt;
        driven.out.as_slice(),
        "mounted\ncall 1\nanswer 1 0 dir 1 0 2\nkernel\n".as_bytes()
    );
    assert_eq!(rt; driven.sent.as_slice(), sent.as_slice());
    assert_eq!(rt; driven.status, 0);
    Ok(())
}

#[test]
fn a_directory_is_opened_and_released(rt: HostRuntime) -> Result<(), Fail> {
    let frames = [INIT_REPLY, OPENDIR_REPLY, LIST_REPLY, RELEASEDIR_REPLY];
    let driven = drive(rt.alloc(), Form::Calls, "call list / 0\n", &frames)?;
    let sent = joined(rt.alloc(), &[INIT, OPENDIR, READDIR, RELEASEDIR])?;
    assert_eq!(rt;
        driven.out.as_slice(),
        "mounted\ncall 1\nanswer 1 0 x:1:file\nkernel\n".as_bytes()
    );
    assert_eq!(rt; driven.sent.as_slice(), sent.as_slice());
    assert_eq!(rt; driven.status, 0);
    Ok(())
}

#[test]
fn an_answer_beside_is_compared(rt: HostRuntime) -> Result<(), Fail> {
    // The server lists a name that the world beside has not.
    let frames = [INIT_REPLY, OPENDIR_REPLY, LIST_REPLY, RELEASEDIR_REPLY];
    let driven = drive(rt.alloc(), Form::CallsBeside, "call list / 0\n", &frames)?;
    let printed =
        "mounted\ncall 1\nanswer 1 0 x:1:file\ndiffers: answer 1 (call list / 0, line 1): 0 x:1:file, here 0\nkernel\nanswers 1 differ 1\n";
    assert_eq!(rt; driven.out.as_slice(), printed.as_bytes());
    assert_eq!(rt; driven.status, 6);
    Ok(())
}
