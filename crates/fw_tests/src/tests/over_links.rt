//! Rows over links of bytes: one that fails at one envelope, and one that gives and takes one byte at a time.

use super::after_loss::is_after_loss;
use super::rows::{Row, STAT_OF_ROOT, lists, long_lists, short_lists};
use fw_link::{FailingLink, FailsIn, Link, MemoryLink, StreamLink};
use fw_script::run_over;
use std::alloc::{AllocError, Global};
use std::io;
use std::io::{Read, Write};
use std::net::{Net, TcpListener, TcpStream};
use std::process::Abort;
use std::test::Fail;

/// Runs a row over a link into an output, with its frames where its name says so, and gives the exit status. Nothing is ever reported.
fn run_row<L: Link + Drop>(alloc: Global, link: L, row: &Row, out: &mut Vec<u8>) -> u8 {
    out.clear();
    let hex = row.name.ends_with("-in-hex");
    let mut input = row.script.as_bytes();
    let mut faults = Vec::new(alloc);
    let status = run_over(alloc, link, "-", hex, &mut input, out, &mut faults);
    if faults.is_empty() { status } else { 255 }
}

/// Runs a row over a link that fails so at this envelope.
fn run_failing(
    alloc: Global,
    fails_in: FailsIn,
    envelope: u64,
    row: &Row,
    out: &mut Vec<u8>,
) -> Result<u8, AllocError> {
    let link = FailingLink::new(alloc, fails_in, envelope)?;
    Ok(run_row(alloc, link, row, out))
}

/// How many envelopes a row sends, by what it prints.
fn envelopes_of(row: &Row) -> u64 {
    let mut count = 0u64;
    for line in row.output.lines() {
        let is_reply = line.starts_with("done ") && !line.ends_with(" lost")
            || line.starts_with("again ")
            || line.starts_with("taken ") && line.ends_with(" again");
        if is_reply || line.starts_with("read ") || line.starts_with("written ") {
            count = count.saturating_add(1);
        }
    }
    count
}

/// Whether what is printed is a beginning of what a row prints, then the lost link, and then what comes after that.
/// Each event has its line.
fn is_cut_off(alloc: Global, row: &Row, printed: &str) -> Result<bool, AllocError> {
    let Some((before, after)) = printed.split_once("link lost\n") else {
        return Ok(false);
    };
    match row.output.strip_prefix(before) {
        Some(rest) => is_after_loss(alloc, before, rest, after),
        None => Ok(false),
    }
}

/// Whether a row is cut off so where the link fails at each of its envelopes.
fn is_cut_off_at_each(
    alloc: Global,
    fails_in: FailsIn,
    row: &Row,
    out: &mut Vec<u8>,
) -> Result<bool, AllocError> {
    let envelopes = envelopes_of(row);
    for envelope in 0..envelopes {
        let status = run_failing(alloc, fails_in, envelope.saturating_add(1), row, out)?;
        let printed = str::from_utf8(out.as_slice()).unwrap_or("");
        if status != 4 || !is_cut_off(alloc, row, printed)? {
            return Ok(false);
        }
    }
    let status = run_failing(alloc, fails_in, envelopes.saturating_add(1), row, out)?;
    Ok(status == 0 && out.as_slice() == row.output.as_bytes())
}

/// Checks these rows.
fn check_cut_off(rt: &impl Abort, alloc: Global, rows: &[Row]) -> Result<(), AllocError> {
    let mut out = Vec::new(alloc);
    for row in rows {
        assert!(rt;
            is_cut_off_at_each(alloc, FailsIn::Put, row, &mut out)?,
            "put {}",
            row.name
        );
        assert!(rt;
            is_cut_off_at_each(alloc, FailsIn::Get, row, &mut out)?,
            "get {}",
            row.name
        );
    }
    Ok(())
}

#[test]
fn a_failure_at_each_envelope(rt: HostRuntime) -> Result<(), Fail> {
    for rows in short_lists() {
        check_cut_off(&rt, rt.alloc(), rows)?;
    }
    Ok(())
}

#[test]
fn a_failure_at_each_envelope_of_long_lists(rt: HostRuntime) -> Result<(), Fail> {
    for rows in long_lists() {
        check_cut_off(&rt, rt.alloc(), rows)?;
    }
    Ok(())
}

/// What `stat /` prints where the link fails at an envelope.
struct Lost {
    envelope: u64,
    output: &'static str,
}

static LOST: [Lost; 4] = [
    Lost {
        envelope: 1,
        output: "mounted\nread 2 INIT 56\nlink lost\nrefused 10 LinkLost\nrefused 10 LinkLost\n\
            refused 10 LinkLost\nrefused 10 LinkLost\nrefused 10 LinkLost\nrefused 10 LinkLost\n\
            refused 10 LinkLost\nrefused 10 LinkLost\nrefused 10 LinkLost\nrefused 10 LinkLost\n",
    },
    Lost {
        envelope: 4,
        output: "mounted\nread 2 INIT 56\ntaken 2 held\ndone 2 0 80\nwritten 2 0\nsettled 2 0\ncall 1\n\
            read 4 GETATTR 56\nlink lost\nanswer 1 103\nrefused 10 LinkLost\nrefused 10 LinkLost\n\
            refused 10 LinkLost\nrefused 10 LinkLost\n",
    },
    Lost {
        envelope: 5,
        output: "mounted\nread 2 INIT 56\ntaken 2 held\ndone 2 0 80\nwritten 2 0\nsettled 2 0\ncall 1\n\
            read 4 GETATTR 56\ntaken 4 held\ndone 4 0 120\nlink lost\nanswer 1 103\n\
            refused 10 LinkLost\nrefused 10 LinkLost\n",
    },
    Lost {
        envelope: 6,
        output: "mounted\nread 2 INIT 56\ntaken 2 held\ndone 2 0 80\nwritten 2 0\nsettled 2 0\ncall 1\n\
            read 4 GETATTR 56\ntaken 4 held\ndone 4 0 120\nwritten 4 0\nlink lost\n\
            answer 1 0 dir 1 0 1\nrefused 10 LinkLost\n",
    },
];

/// Whether `stat /` prints this over a link that fails so.
fn prints_lost(alloc: Global, fails_in: FailsIn, lost: &Lost) -> Result<bool, AllocError> {
    let mut out = Vec::new(alloc);
    let status = run_failing(alloc, fails_in, lost.envelope, &STAT_OF_ROOT, &mut out)?;
    Ok(status == 4 && out.as_slice() == lost.output.as_bytes())
}

#[test]
fn stat_of_root_over_a_link_that_fails(rt: HostRuntime) -> Result<(), Fail> {
    for lost in &LOST {
        assert!(rt;
            prints_lost(rt.alloc(), FailsIn::Put, lost)?,
            "put {}",
            lost.envelope
        );
        assert!(rt;
            prints_lost(rt.alloc(), FailsIn::Get, lost)?,
            "get {}",
            lost.envelope
        );
    }
    Ok(())
}

/// An end of a connection that gives and takes one byte at a time. TCP joins single bytes in its buffers, where each
/// would take a place of its own in those of a Unix socket.
#[derive(Drop)]
struct Slow(TcpStream);

impl Read for Slow {
    fn read(&mut self, buf: &mut [u8]) -> io::Result<usize> {
        let most = buf.len().min(1);
        self.0.read(&mut buf[..most])
    }
}

impl Write for Slow {
    fn write(&mut self, buf: &[u8]) -> io::Result<usize> {
        let most = buf.len().min(1);
        self.0.write(&buf[..most])
    }

    fn flush(&mut self) -> io::Result<()> {
        Ok(())
    }
}

/// A link over two ends of a connection within this machine.
fn slow_link<R: Net<Listener = TcpListener, Stream = TcpStream>>(
    net: &R,
) -> io::Result<StreamLink<Slow, Slow>> {
    let listener = TcpListener::bind(net, "127.0.0.1:0")?;
    let kernel = TcpStream::connect(net, listener.local_addr()?)?;
    let (server, _) = listener.accept()?;
    // A byte is not to wait for others.
    kernel.set_nodelay(true)?;
    server.set_nodelay(true)?;
    let kernel_writer = kernel.try_clone()?;
    let server_writer = server.try_clone()?;
    Ok(StreamLink::new(
        Slow(kernel),
        Slow(kernel_writer),
        Slow(server),
        Slow(server_writer),
    ))
}

/// Whether a row prints the same over such a link, and over one in memory.
fn is_same_over_links<R: Net<Listener = TcpListener, Stream = TcpStream>>(
    net: &R,
    alloc: Global,
    row: &Row,
    out: &mut Vec<u8>,
) -> bool {
    let Ok(slow) = slow_link(net) else {
        return false;
    };
    let status = run_row(alloc, slow, row, out);
    if status != 0 || out.as_slice() != row.output.as_bytes() {
        return false;
    }
    let Ok(memory) = MemoryLink::new(alloc) else {
        return false;
    };
    let status = run_row(alloc, memory, row, out);
    status == 0 && out.as_slice() == row.output.as_bytes()
}

/// Each of these rows.
fn check_slow_rows<R: Abort + Net<Listener = TcpListener, Stream = TcpStream>>(
    rt: &R,
    alloc: Global,
    rows: &[Row],
    out: &mut Vec<u8>,
) -> Result<(), Fail> {
    for row in rows {
        assert!(rt; is_same_over_links(rt, alloc, row, out), "{}", row.name);
    }
    Ok(())
}

#[test]
fn each_row_one_byte_at_a_time(rt: HostRuntime) -> Result<(), Fail> {
    let mut out = Vec::new(rt.alloc());
    for rows in lists() {
        check_slow_rows(&rt, rt.alloc(), rows, &mut out)?;
    }
    Ok(())
}
