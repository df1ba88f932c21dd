//! Writes up to a limit.

use crate::LimitedWriter;
use std::io::Write;
use std::test::Fail;

#[test]
fn writes_up_to_the_limit(rt: HostRuntime) -> Result<(), Fail> {
    let mut written = Vec::new(rt.alloc());
    let mut out = LimitedWriter::new(&mut written, 5);
    assert!(rt; out.write_all(b"abc").is_ok());
    assert!(rt; out.write_all(b"").is_ok());
    assert!(rt; out.write(b"def").is_ok_and(|count| count == 2));
    let refused = out.write(b"f");
    assert!(rt; refused.is_err_and(|error| error.raw_os_error() == Some(27)));
    assert!(rt; out.flush().is_ok());
    drop(out);
    assert_eq!(rt; written.as_slice(), b"abcde".as_slice());
    Ok(())
}

#[test]
fn has_no_limit(rt: HostRuntime) -> Result<(), Fail> {
    let mut written = Vec::new(rt.alloc());
    let mut out = LimitedWriter::new(&mut written, u64::MAX);
    assert!(rt; out.write_all(b"abc").is_ok());
    drop(out);
    assert_eq!(rt; written.as_slice(), b"abc".as_slice());
    Ok(())
}
