//! Lines that are no events, and lines that are passed over.

use fuse_text::{Words, split_at, split_word};
use fw_script::{Lines, run_script};
use std::alloc::{AllocError, Global};
use std::process::Abort;
use std::test::Fail;

/// The first word is not known, or the second after `call` and `read`.
static UNKNOWN_EVENT: [&[u8]; 18] = [
    b"mounts 1 0",
    b" mount 1 0",
    b"Mount 1 0",
    b"mount\t1 0",
    b"call",
    b"call ",
    b"call  stat /",
    b"call stats /",
    b"call abort",
    b"read",
    b"read ",
    b"read q 0",
    b"read 0",
    b"read pending 0",
    b"interrupt 1 soft",
    b"aborts",
    b"\r\n",
    b"call stats \x01 b",
];

/// Too few words or too many, an empty one, or no signal in its place, whatever else is wrong.
static WRONG_WORDS: [&[u8]; 42] = [
    b"call stat",
    b"call stat ",
    b"call stat /a b",
    b"call stat /a ",
    b"call stat  /a",
    b"mount",
    b"mount 1",
    b"mount 1  0",
    b"mount 1 0 15 15",
    b"mount 1 0 ",
    b"read p",
    b"read i 0",
    b"read i ",
    b"read f",
    b"take ",
    b"do 2 ",
    b"write 0 0",
    b"settle",
    b"abort 1",
    b"abort ",
    b"show 1",
    b"call list /",
    b"call list / 0 0",
    b"call rename /a",
    b"call link /a ",
    b"call read 1 0",
    b"call read 1 0 1 1",
    b"call write 1 0",
    b"call write 1 0 ",
    b"call write 1 0 00 00",
    b"call close",
    b"drop 1",
    b"drop 1 a b",
    b"intr 1",
    b"intr 1 ",
    b"intr 1 hard",
    b"intr 1 Soft",
    b"intr 1 soft ",
    b"intr fatal 1",
    b"mount x",
    b"call stat \x01 b",
    b"intr x hard",
];

/// A number is none, whatever else is wrong.
static BAD_NUMBER: [&[u8]; 28] = [
    b"mount x 0",
    b"mount 1000 0 0",
    b"mount 1000 0 22",
    b"mount 1000 0 031",
    b"mount 1000 0 x",
    b"mount 1000 0x0",
    b"mount 01000 0",
    b"mount 0 00",
    b"read p -1",
    b"read f x",
    b"take +1",
    b"do 18446744073709551616",
    b"write 1\r\n",
    b"settle 1_0",
    b"tick 1.5",
    b"evict #1",
    b"drop a a",
    b"intr x soft",
    b"call list / x",
    b"call read x 0 1",
    b"call read 1 x 1",
    b"call read 1 0 x",
    b"call write x 0 00",
    b"call write 1 x 00",
    b"call close x",
    b"call list \x01 x",
    b"drop x \x01",
    b"call write x 0 0",
];

/// A path, a name or hex has other bytes, or hex is of odd length.
static BAD_TEXT: [&[u8]; 20] = [
    b"call stat /\x7f",
    b"call stat /a\r\n",
    b"call stat /\xc3\xa9",
    b"call list /\x7f 0",
    b"call open /\x7f",
    b"call mkdir /\x7f",
    b"call create /\x7f",
    b"call unlink /\x7f",
    b"call rmdir /\x7f",
    b"call rename /\x7f /b",
    b"call rename /a /\x7f",
    b"call link /\x7f /b",
    b"call link /a /\x7f",
    b"drop 1 \x1f",
    b"call write 1 0 0",
    b"call write 1 0 000",
    b"call write 1 0 0g",
    b"call write 1 0 0A",
    b"call write 1 0 --",
    b"call write 1 0 -0",
];

/// Whether a script's run gives this exit status, prints this, and reports this fault.
fn run_gives(alloc: Global, script: &[u8], status: u8, output: &[u8], fault: &[u8]) -> bool {
    let mut input = script;
    let mut out = Vec::new(alloc);
    let mut faults = Vec::new(alloc);
    let given = run_script(alloc, "-", false, &mut input, &mut out, &mut faults);
    given == status && out.as_slice() == output && faults.as_slice() == fault
}

/// A line with the line feed that ends it.
fn ended(alloc: Global, line: &[u8]) -> Result<Vec<u8>, AllocError> {
    let mut text = line.to_vec(alloc)?;
    text.push(b'\n')?;
    Ok(text)
}

/// Checks that each of the lines alone is reported to have this fault, and is not run, whether or not a line feed ends it.
fn check_lines(
    rt: &impl Abort,
    alloc: Global,
    lines: &[&[u8]],
    fault: &[u8],
) -> Result<(), AllocError> {
    for line in lines {
        assert!(rt; run_gives(alloc, line, 1, b"", fault), "{:?}", line);
        let text = ended(alloc, line)?;
        assert!(rt; run_gives(alloc, &text, 1, b"", fault), "{:?}", text);
    }
    Ok(())
}

#[test]
fn tells_the_fault_of_each_line(rt: HostRuntime) -> Result<(), Fail> {
    check_lines(&rt, rt.alloc(), &UNKNOWN_EVENT, b"line 1: unknown event\n")?;
    check_lines(&rt, rt.alloc(), &WRONG_WORDS, b"line 1: wrong words\n")?;
    check_lines(&rt, rt.alloc(), &BAD_NUMBER, b"line 1: bad number\n")?;
    check_lines(&rt, rt.alloc(), &BAD_TEXT, b"line 1: bad text\n")?;
    Ok(())
}

/// Lines of one number, and what each comes to on a new world.
static ONE_NUMBER: [(&[u8], &[u8]); 9] = [
    (b"read p 0", b"refused 4 NotReady\n"),
    (b"read f 1", b"refused 4 NotReady\n"),
    (b"take 0", b"refused 2 NoSuch\n"),
    (b"do 2", b"refused 2 NoSuch\n"),
    (b"again 2", b"refused 6 NoCopy\n"),
    (b"write 0", b"refused 2 NoSuch\n"),
    (b"settle 0", b"refused 2 NoSuch\n"),
    (b"tick 9007199254740991", b"now 9007199254740991\n"),
    (b"evict 2", b"refused 4 NotReady\n"),
];

#[test]
fn reads_lines_of_one_number_whether_or_not_a_line_feed_ends_them(
    rt: HostRuntime,
) -> Result<(), Fail> {
    for (line, output) in &ONE_NUMBER {
        assert!(rt; run_gives(rt.alloc(), line, 0, output, b""), "{:?}", line);
        let text = ended(rt.alloc(), line)?;
        assert!(rt; run_gives(rt.alloc(), &text, 0, output, b""), "{:?}", text);
    }
    Ok(())
}

#[test]
fn tells_the_first_bad_line_and_runs_none(rt: HostRuntime) -> Result<(), Fail> {
    let script = b"mount 1000 0\n\n# take x\ntake x\nfoo\n".as_slice();
    assert!(rt; run_gives(rt.alloc(), script, 1, b"", b"line 4: bad number\n"));
    Ok(())
}

#[test]
fn passes_over_notes_and_empty_lines(rt: HostRuntime) -> Result<(), Fail> {
    let script =
        b"\n# a note\n#\n\nmount 86400001 0\n\ntake 18446744073709551615\n# the last line".as_slice();
    let output = b"refused 9 BadTime\nrefused 2 NoSuch\n".as_slice();
    assert!(rt; run_gives(rt.alloc(), script, 0, output, b""));
    Ok(())
}

/// Whether a script has these lines.
fn are_lines(script: &[u8], wanted: &[&[u8]]) -> bool {
    let mut count: usize = 0;
    for line in Lines::of(script) {
        match wanted.get(count) {
            Some(part) if *part == line => count = count.saturating_add(1),
            _ => return false,
        }
    }
    count == wanted.len()
}

/// Whether these words are left.
fn are_words(text: Option<&[u8]>, wanted: &[&[u8]]) -> bool {
    let mut count: usize = 0;
    for word in Words::left(text) {
        match wanted.get(count) {
            Some(part) if *part == word => count = count.saturating_add(1),
            _ => return false,
        }
    }
    count == wanted.len()
}

#[test]
fn splits_lines_and_words(rt: HostRuntime) -> Result<(), Fail> {
    assert!(rt;
        split_at(b"frame 9: server: x", b':')
            == (b"frame 9".as_slice(), Some(b" server: x".as_slice()))
    );
    assert!(rt; split_at(b"frame", b':') == (b"frame".as_slice(), None));
    assert!(rt; split_word(b"call stat /") == (b"call".as_slice(), Some(b"stat /".as_slice())));
    assert!(rt; split_word(b"") == (b"".as_slice(), None));
    assert!(rt; are_lines(b"a\n\nb\n", &[b"a", b"", b"b", b""]));
    assert!(rt; are_words(Some(b"a  b"), &[b"a", b"", b"b"]));
    assert!(rt; are_words(None, &[]));
    Ok(())
}
