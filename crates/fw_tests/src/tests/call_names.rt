//! Lines with names, and the lines that stand for them.

use fuse_spec::Dentry;
use fw_call_names::{NamedLines, plain_script};
use fw_drive::{InputLines, KernelView, LineSource, Standing};
use std::alloc::{AllocError, Global};
use std::test::Fail;

/// A kernel that has nothing.
struct NoKernel;

impl KernelView for NoKernel {
    ghost use Rattle.std.specs.Prelude.{None};

    ghost leads = { λ kernel directory name. None };

    ghost drops = { λ kernel name. Unit {0} };

    ghost evicts = { λ kernel. None };

    fn cached_name(&self, _directory: u64, _name: &[u8]) -> Option<Dentry> {
        None
    }

    fn first_cached_name(&self) -> Option<(u64, &[u8])> {
        None
    }

    fn first_evictable(&self) -> Result<Option<u64>, AllocError> {
        Ok(None)
    }

    fn listed_to(&self) -> Option<u64> {
        None
    }
}

/// What a kernel has whose next call gets this number.
fn standing(next_call: u64) -> Standing {
    Standing {
        calls: 0,
        pending: 0,
        is_interrupting: false,
        is_forgetting: false,
        next_call,
    }
}

/// The lines that stand for those of a script, each with a line feed. The next call has the first of these numbers as
/// the first line is asked for, and so on.
fn given(alloc: Global, script: &[u8], next_calls: &[u64]) -> Result<Vec<u8>, Fail> {
    let mut lines = NamedLines::new(alloc, InputLines::new(script));
    let mut out: Vec<u8> = Vec::new(alloc);
    let mut line: Vec<u8> = Vec::new(alloc);
    let mut text = Vec::new(alloc);
    for next_call in next_calls {
        if lines.next_line(standing(*next_call), &NoKernel, &mut out, &mut line)? {
            text.extend_from_slice(line.as_slice())?;
            text.push(b'\n')?;
        }
    }
    Ok(text)
}

#[test]
fn names_stand_for_the_numbers_of_calls(rt: HostRuntime) -> Result<(), Fail> {
    let text = given(
        rt.alloc(),
        b"call create /a as A\ncall read A 0 10\nintr A soft\ncall write A 0 6161\ncall close A",
        &[3, 4, 5, 5, 6],
    )?;
    assert_eq!(rt;
        text.as_slice(),
        b"call create /a\ncall read 3 0 10\nintr 3 soft\ncall write 3 0 6161\ncall close 3\n".as_slice()
    );
    Ok(())
}

#[test]
fn a_refused_call_has_no_number(rt: HostRuntime) -> Result<(), Fail> {
    let text = given(
        rt.alloc(),
        b"call open /none as A\ncall read A 0 10\ncall close A",
        &[5, 5, 5],
    )?;
    assert_eq!(rt;
        text.as_slice(),
        b"call open /none\ncall read 0 0 10\ncall close 0\n".as_slice()
    );
    Ok(())
}

#[test]
fn a_name_given_again_stands_for_the_newest_call(rt: HostRuntime) -> Result<(), Fail> {
    let text = given(
        rt.alloc(),
        b"call open /a as A\ncall open /b as B\ncall open /c as A\ncall close A\ncall close B",
        &[1, 2, 3, 4, 5],
    )?;
    assert_eq!(rt;
        text.as_slice(),
        b"call open /a\ncall open /b\ncall open /c\ncall close 3\ncall close 2\n".as_slice()
    );
    Ok(())
}

#[test]
fn a_call_may_use_a_name_and_have_one(rt: HostRuntime) -> Result<(), Fail> {
    let text = given(
        rt.alloc(),
        b"call open /a as A\ncall read A 0 10 as B\nintr B hard\ncall close A",
        &[1, 2, 3, 3],
    )?;
    assert_eq!(rt;
        text.as_slice(),
        b"call open /a\ncall read 1 0 10\nintr 2 hard\ncall close 1\n".as_slice()
    );
    Ok(())
}

#[test]
fn all_else_stays(rt: HostRuntime) -> Result<(), Fail> {
    let script = b"call read A 0 10\ncall rename as x\ncall stat as\n# call stat /a as A\n\n\
call  close A\nintr\ncall\nnow A\ncall stat /a as 1\n"
        .as_slice();
    let text = given(rt.alloc(), script, &[1, 1, 1, 2, 3, 3, 3, 3, 3, 3])?;
    assert_eq!(rt; text.as_slice(), script);
    Ok(())
}

#[test]
fn a_plain_script_has_a_number_for_each_name(rt: HostRuntime) -> Result<(), Fail> {
    let plain = plain_script(
        rt.alloc(),
        b"call create /a as A\ncall read A 0 10\ncall close B\n",
    )?;
    let text = plain.ok_or("no other script")?;
    assert_eq!(rt;
        text.as_slice(),
        b"call create /a\ncall read 1 0 10\ncall close B\n".as_slice()
    );
    Ok(())
}

#[test]
fn a_script_without_names_is_plain(rt: HostRuntime) -> Result<(), Fail> {
    let plain = plain_script(
        rt.alloc(),
        b"call create /a\ncall close 1\ncall rename as x",
    )?;
    assert!(rt; plain.is_none());
    Ok(())
}
