//! Readers and writers that fail, and memory that runs out.

use super::rows::STAT_OF_ROOT;
use fail_at::FailAt;
use fw_script::{run_frame, run_script};
use std::alloc::{Allocator, Global};
use std::io;
use std::io::{ErrorKind, Read, Write};
use std::test::Fail;

/// Gives some bytes, and then an error.
#[derive(Drop)]
struct Breaks<'a>(&'a [u8]);

impl Read for Breaks<'_> {
    fn read(&mut self, buf: &mut [u8]) -> io::Result<usize> {
        let Some((first, rest)) = self.0.split_first() else {
            return Err(io::Error::from(ErrorKind::BrokenPipe));
        };
        let Some(place) = buf.first_mut() else {
            return Ok(0);
        };
        *place = *first;
        self.0 = rest;
        Ok(1)
    }
}

/// Takes all bytes, and fails to hand them on.
#[derive(Drop)]
struct NeverFlushed;

impl Write for NeverFlushed {
    fn write(&mut self, buf: &[u8]) -> io::Result<usize> {
        Ok(buf.len())
    }

    fn flush(&mut self) -> io::Result<()> {
        Err(io::Error::from(ErrorKind::StorageFull))
    }
}

/// Whether a script that cannot be read to its end runs nothing, and is reported.
fn cannot_be_read(alloc: Global) -> bool {
    let mut input = Breaks(b"mount 1000 0\nread p 0\n");
    let mut out = Vec::new(alloc);
    let mut faults = Vec::new(alloc);
    let status = run_script(alloc, "a.script", false, &mut input, &mut out, &mut faults);
    status == 1 && out.is_empty() && faults.as_slice() == b"cannot read a.script\n".as_slice()
}

#[test]
fn reader_fails_in_mid_stream(rt: HostRuntime) -> Result<(), Fail> {
    assert!(rt; cannot_be_read(rt.alloc()));
    Ok(())
}

/// Whether a run whose output has this much room gives the beginning that fits, and the status that says so.
fn fills(alloc: Global, room: &mut [u8]) -> bool {
    let wanted = STAT_OF_ROOT.output.as_bytes();
    let status = if room.len() == wanted.len() { 0 } else { 5 };
    let mut out: &mut [u8] = room;
    let mut input = STAT_OF_ROOT.script.as_bytes();
    let mut faults = Vec::new(alloc);
    let given = run_script(alloc, "-", false, &mut input, &mut out, &mut faults);
    given == status && faults.is_empty() && wanted.starts_with(room)
}

#[test]
fn output_refused_at_each_byte(rt: HostRuntime) -> Result<(), Fail> {
    for length in 0..=STAT_OF_ROOT.output.len() {
        let mut room = vec![in rt.alloc(); 0u8; length]?;
        assert!(rt; fills(rt.alloc(), &mut room), "{length}");
    }
    Ok(())
}

/// Whether output that is taken and not handed on is refused, of a script and of a frame.
fn flush_is_received(alloc: Global) -> bool {
    let mut input = STAT_OF_ROOT.script.as_bytes();
    let mut faults = Vec::new(alloc);
    let status = run_script(
        alloc,
        "-",
        false,
        &mut input,
        &mut NeverFlushed,
        &mut faults,
    );
    status == 5
        && run_frame(alloc, "00", false, &mut NeverFlushed, &mut faults) == 5
        && faults.is_empty()
}

#[test]
fn output_refused_at_the_flush(rt: HostRuntime) -> Result<(), Fail> {
    assert!(rt; flush_is_received(rt.alloc()));
    Ok(())
}

/// Whether a run in which a growth was refused gives no memory before the first event, or a refused event.
fn tells_of_no_memory(status: u8, out: &[u8], faults: &[u8]) -> bool {
    if status == 3 {
        return out.is_empty() && faults == b"no memory\n".as_slice();
    }
    let printed = str::from_utf8(out).unwrap_or("");
    status == 0 && printed.contains("refused 1 NoMemory\n") && faults.is_empty()
}

/// Whether a script runs as it must, one of whose growths may be refused.
fn is_run<A: Allocator + Copy>(alloc: A, heap: &FailAt<Global>, outer: Global) -> bool {
    let mut input = STAT_OF_ROOT.script.as_bytes();
    let mut out = Vec::new(outer);
    let mut faults = Vec::new(outer);
    let status = run_script(alloc, "-", false, &mut input, &mut out, &mut faults);
    if heap.left() == 0 {
        tells_of_no_memory(status, &out, &faults)
    } else {
        status == 0 && out.as_slice() == STAT_OF_ROOT.output.as_bytes() && faults.is_empty()
    }
}

#[test]
fn each_growth_refused_in_a_script(rt: HostRuntime) -> Result<(), Fail> {
    let heap = FailAt::new(rt.alloc());
    let mut runs = 0;
    for n in heap.each_growth(200) {
        assert!(rt; is_run(&heap, &heap, rt.alloc()), "{n}");
        runs = n;
    }
    assert!(rt; 3 < runs && runs < 200, "{runs}");
    Ok(())
}

/// The status with which a script ends whose third line is bad: 1 where that line is reported, 3 where out of memory
/// is, and nothing else is written.
fn status_of_a_bad_script<A: Allocator + Copy>(alloc: A, outer: Global) -> Option<u8> {
    let mut input = b"mount 1000 0\nread p 0\nreed p 0\n".as_slice();
    let mut out = Vec::new(outer);
    let mut faults = Vec::new(outer);
    let status = run_script(alloc, "-", false, &mut input, &mut out, &mut faults);
    let wanted = match status {
        1 => b"line 3: unknown event\n".as_slice(),
        3 => b"no memory\n".as_slice(),
        _ => return None,
    };
    if out.is_empty() && faults.as_slice() == wanted {
        Some(status)
    } else {
        None
    }
}

/// A bad line is reported though the list of the lines before it cannot grow; only where the script's text cannot be
/// kept is memory out.
#[test]
fn bad_line_comes_before_out_of_memory(rt: HostRuntime) -> Result<(), Fail> {
    let heap = FailAt::new(rt.alloc());
    let mut last_refused = None;
    let mut runs = 0;
    for n in heap.each_growth(20) {
        let status = status_of_a_bad_script(&heap, rt.alloc());
        if heap.left() == 0 {
            assert!(rt; status.is_some(), "{n}");
            last_refused = status;
        } else {
            assert!(rt; status == Some(1), "{n}");
        }
        runs = n;
    }
    assert!(rt; 2 < runs && runs < 20 && last_refused == Some(1), "{runs}");
    Ok(())
}

/// Whether a frame whose first growth is refused is reported, and read when it is given again.
fn frame_is_refused<A: Allocator + Copy>(alloc: A, heap: &FailAt<Global>, outer: Global) -> bool {
    let mut out = Vec::new(outer);
    let mut faults = Vec::new(outer);
    heap.refuse(1);
    let refused = run_frame(alloc, "00", false, &mut out, &mut faults);
    let is_told = out.is_empty() && faults.as_slice() == b"no memory\n".as_slice();
    let again = run_frame(alloc, "00", false, &mut out, &mut faults);
    refused == 3 && is_told && again == 0 && out.as_slice() == b"fault 1 Short\n".as_slice()
}

#[test]
fn growth_refused_in_a_frame(rt: HostRuntime) -> Result<(), Fail> {
    let heap = FailAt::new(rt.alloc());
    assert!(rt; frame_is_refused(&heap, &heap, rt.alloc()));
    Ok(())
}
