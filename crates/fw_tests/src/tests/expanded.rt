//! Lines that stand for several, and the lines that they give.

ghost use Rattle.std.specs.Prelude.{◌≡◌, Some};

use fuse_spec::Dentry;
use fw_drive::{Form, InputLines, KernelView, LineSource, Standing};
use fw_expand::{ExpandedLines, expandable_script};
use std::alloc::{AllocError, Global};
use std::test::Fail;

/// What a kernel shows just then.
#[derive(Clone, Copy)]
struct Shown {
    /// The node to which the name `d` of the root leads.
    directory: Option<u64>,
    /// The node to which the name `f` of that node leads.
    file: Option<u64>,
    /// A name that may be dropped.
    name: Option<(u64, &'static [u8])>,
    /// A node that may be evicted.
    node: Option<u64>,
    offset: Option<u64>,
    is_forgetting: bool,
}

/// Nothing is cached, counted or listed.
const NOTHING: Shown = Shown {
    directory: None,
    file: None,
    name: None,
    node: None,
    offset: None,
    is_forgetting: false,
};

/// A cached name that leads there.
fn leading_to(target: Option<u64>) -> Option<Dentry>
    ensures { result ≡ Some (record { target = target; until = 0 }) }
{
    Some(Dentry { target, until: 0 })
}

impl KernelView for Shown {
    ghost use Rattle.std.specs.Prelude.{◌==◌, ◌&&◌, None, bytes_eq, codes, if◌then◌else◌};

    ghost leads = { λ shown directory name.
        if directory == 1 && bytes_eq name (codes "d") then Some (record { target = shown.directory; until = 0 }) else
        if directory == 7 && bytes_eq name (codes "f") then Some (record { target = shown.file; until = 0 }) else None };

    ghost drops = { λ shown name. Unit {0} };

    ghost evicts = { λ shown. shown.node };

    fn cached_name(&self, directory: u64, name: &[u8]) -> Option<Dentry> {
        if directory == 1 && name == b"d".as_slice() {
            return leading_to(self.directory);
        }
        if directory == 7 && name == b"f".as_slice() {
            return leading_to(self.file);
        }
        None
    }

    fn first_cached_name(&self) -> Option<(u64, &[u8])> {
        self.name
    }

    fn first_evictable(&self) -> Result<Option<u64>, AllocError> {
        Ok(self.node)
    }

    fn listed_to(&self) -> Option<u64> {
        self.offset
    }
}

/// The lines that a script gives, each with a line feed, one for each of these kernels in turn.
fn given(alloc: Global, form: Form, script: &[u8], kernels: &[Shown]) -> Result<Vec<u8>, Fail> {
    let mut lines = ExpandedLines::new(alloc, form, InputLines::new(script));
    let mut out: Vec<u8> = Vec::new(alloc);
    let mut line: Vec<u8> = Vec::new(alloc);
    let mut text = Vec::new(alloc);
    for kernel in kernels {
        let standing = Standing {
            calls: 0,
            pending: 0,
            is_interrupting: false,
            is_forgetting: kernel.is_forgetting,
            next_call: 1,
        };
        if lines.next_line(standing, kernel, &mut out, &mut line)? {
            text.extend_from_slice(line.as_slice())?;
            text.push(b'\n')?;
        }
    }
    Ok(text)
}

#[test]
fn forgets_are_read_while_one_may_be(rt: HostRuntime) -> Result<(), Fail> {
    let some = Shown {
        is_forgetting: true,
        ..NOTHING
    };
    let script = b"forget\nshow";
    let text = given(
        rt.alloc(),
        Form::Events,
        script,
        &[some, some, NOTHING, NOTHING],
    )?;
    assert_eq!(rt; text.as_slice(), b"read f 1\nread f 1\nshow\n".as_slice());
    let text = given(rt.alloc(), Form::Calls, script, &[some, some])?;
    assert_eq!(rt; text.as_slice(), b"show\n".as_slice());
    Ok(())
}

#[test]
fn names_are_dropped_and_then_nodes_evicted(rt: HostRuntime) -> Result<(), Fail> {
    let name: &'static [u8] = b"f".as_slice();
    let cached = Shown {
        name: Some((7, name)),
        node: Some(3),
        ..NOTHING
    };
    let counted = Shown {
        node: Some(7),
        ..NOTHING
    };
    let kernels = [cached, counted, cached, NOTHING, NOTHING];
    let text = given(rt.alloc(), Form::Events, b"evict all\nshow", &kernels)?;
    assert_eq!(rt;
        text.as_slice(),
        b"drop 7 f\nevict 7\nevict 3\nshow\n".as_slice()
    );
    Ok(())
}

#[test]
fn a_name_that_no_line_can_say_stays(rt: HostRuntime) -> Result<(), Fail> {
    for name in [b"a b".as_slice(), b"".as_slice(), b"\x7f".as_slice()] {
        let cached = Shown {
            name: Some((1, name)),
            node: Some(3),
            ..NOTHING
        };
        let text = given(
            rt.alloc(),
            Form::Events,
            b"evict all\nshow",
            &[cached, NOTHING],
        )?;
        assert_eq!(rt; text.as_slice(), b"evict 3\nshow\n".as_slice());
    }
    Ok(())
}

#[test]
fn a_path_is_walked_from_the_root(rt: HostRuntime) -> Result<(), Fail> {
    let cached = Shown {
        directory: Some(7),
        file: Some(9),
        ..NOTHING
    };
    let script = b"evict /d/f\nevict /d\nevict /f\nevict /d/f/f\nevict /d/\nevict /";
    let text = given(rt.alloc(), Form::Calls, script, &[cached; 8])?;
    assert_eq!(rt;
        text.as_slice(),
        b"drop 7 f\nevict 9\ndrop 1 d\nevict 7\nevict 0\nevict 0\nevict 0\nevict 0\n".as_slice()
    );
    let missing = Shown {
        directory: None,
        ..cached
    };
    let text = given(
        rt.alloc(),
        Form::Calls,
        b"evict /d/f\nevict /d",
        &[missing, missing],
    )?;
    assert_eq!(rt; text.as_slice(), b"evict 0\nevict 0\n".as_slice());
    Ok(())
}

#[test]
fn a_directory_is_listed_to_its_end(rt: HostRuntime) -> Result<(), Fail> {
    let listed = |offset| Shown {
        offset: Some(offset),
        ..NOTHING
    };
    let script = b"call list /d all\ncall listplus / all\nshow";
    let kernels = [listed(3), listed(5), listed(8), NOTHING, listed(2), NOTHING];
    let text = given(rt.alloc(), Form::CallsBeside, script, &kernels)?;
    assert_eq!(rt;
        text.as_slice(),
        b"call list /d 0\ncall list /d 5\ncall list /d 8\ncall listplus / 0\ncall listplus / 2\nshow\n".as_slice()
    );
    let text = given(
        rt.alloc(),
        Form::Events,
        b"call list /d all\nshow",
        &[listed(3), listed(5)],
    )?;
    assert_eq!(rt; text.as_slice(), b"call list /d all\nshow\n".as_slice());
    Ok(())
}

#[test]
fn a_directory_is_listed_by_so_many_calls_at_most(rt: HostRuntime) -> Result<(), Fail> {
    let again = Shown {
        offset: Some(0),
        ..NOTHING
    };
    let kernels = vec![in rt.alloc(); again; 10_001]?;
    let text = given(
        rt.alloc(),
        Form::Calls,
        b"call list / all\nshow",
        kernels.as_slice(),
    )?;
    // Each line of a call has 14 bytes with its line feed, and `show` has 5.
    assert_eq!(rt; text.len(), 140_005);
    Ok(())
}

#[test]
fn all_else_stays(rt: HostRuntime) -> Result<(), Fail> {
    let script =
        b"forget 1\n forget\nevict\nevict 3\nevict all 1\nevict  all\nevict f\n# evict all\n\nevict /a\x80\n\
call stat /d all\ncall list /d\ncall list /d all all\ncall list all\n"
            .as_slice();
    let shown = Shown {
        is_forgetting: true,
        node: Some(3),
        offset: Some(3),
        ..NOTHING
    };
    let text = given(rt.alloc(), Form::Calls, script, &[shown; 20])?;
    let mut wanted = Vec::new(rt.alloc());
    wanted.extend_from_slice(script)?;
    wanted.push(b'\n')?;
    assert_eq!(rt; text.as_slice(), wanted.as_slice());
    assert!(rt; expandable_script(rt.alloc(), Form::Calls, script)?.is_none());
    Ok(())
}

#[test]
fn a_script_is_judged_by_one_line_for_each(rt: HostRuntime) -> Result<(), Fail> {
    let script = b"forget\nevict all\nevict /a/b\ncall list /d all\ncall listplus / all\nshow\n";
    let made = expandable_script(rt.alloc(), Form::Calls, script)?;
    let text = made.ok_or("no other script")?;
    assert_eq!(rt;
        text.as_slice(),
        b"show\nshow\nshow\ncall list /d 0\ncall listplus / 0\nshow\n".as_slice()
    );
    let made = expandable_script(rt.alloc(), Form::Events, b"call list /d all\nforget")?;
    let text = made.ok_or("no other script")?;
    assert_eq!(rt; text.as_slice(), b"call list /d all\nshow".as_slice());
    Ok(())
}
