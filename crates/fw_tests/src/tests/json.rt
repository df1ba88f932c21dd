//! What `drive` prints, as JSON objects.

use fw_json::JsonLines;
use std::alloc::Global;
use std::io::Write;
use std::test::Fail;

/// What a text is written as.
fn json_of(alloc: Global, text: &[u8]) -> Result<Vec<u8>, Fail> {
    let mut written = Vec::new(alloc);
    let mut out = JsonLines::new(alloc, &mut written);
    out.write_all(text)?;
    out.flush()?;
    drop(out);
    Ok(written)
}

#[test]
fn has_an_object_for_each_event(rt: HostRuntime) -> Result<(), Fail> {
    let text =
        b"mounted\nread 2 INIT 56\nwritten 2 0\ncall 1\ninterrupted 1 queued\nnow 7\nevicted 5 2\n";
    let json = json_of(rt.alloc(), text)?;
    assert_eq!(rt;
        json.as_slice(),
        b"{\"event\":\"mounted\",\"schema\":1}\n\
{\"event\":\"read\",\"unique\":2,\"opcode\":\"INIT\",\"len\":56}\n\
{\"event\":\"written\",\"unique\":2,\"result\":0}\n\
{\"event\":\"call\",\"call\":1}\n\
{\"event\":\"interrupted\",\"call\":1,\"effect\":\"queued\"}\n\
{\"event\":\"now\",\"clock\":7}\n\
{\"event\":\"evicted\",\"nodeid\":5,\"count\":2}\n"
            .as_slice()
    );
    Ok(())
}

#[test]
fn lists_what_an_answer_has(rt: HostRuntime) -> Result<(), Fail> {
    let json = json_of(
        rt.alloc(),
        b"answer 1 2\n# answer 4 0 file 7 3 1\nkernel 1:0:1\nrefused 2 NoSuch\n",
    )?;
    assert_eq!(rt;
        json.as_slice(),
        b"{\"event\":\"answer\",\"schema\":1,\"call\":1,\"error\":2,\"values\":[]}\n\
{\"event\":\"answer\",\"call\":4,\"error\":0,\"values\":[\"file\",\"7\",\"3\",\"1\"]}\n\
{\"event\":\"kernel\",\"nodes\":[\"1:0:1\"]}\n\
{\"event\":\"refused\",\"number\":2,\"name\":\"NoSuch\"}\n"
            .as_slice()
    );
    Ok(())
}

#[test]
fn has_faults_ends_and_other_lines_whole(rt: HostRuntime) -> Result<(), Fail> {
    let json = json_of(
        rt.alloc(),
        b"reply to nothing: 4\nframe 9: server: second reply: unique 8\nframe 3: warning: x: y\nno reply\nread p 0\na\"\\\x01\n",
    )?;
    assert_eq!(rt;
        json.as_slice(),
        b"{\"event\":\"fault\",\"schema\":1,\"text\":\"reply to nothing: 4\"}\n\
{\"event\":\"fault\",\"party\":\"server\",\"frame\":9,\"text\":\"frame 9: server: second reply: unique 8\"}\n\
{\"event\":\"warning\",\"frame\":3,\"text\":\"frame 3: warning: x: y\"}\n\
{\"event\":\"end\",\"text\":\"no reply\"}\n\
{\"event\":\"line\",\"text\":\"read p 0\"}\n\
{\"event\":\"line\",\"text\":\"a\\u0022\\u005c\\u0001\"}\n"
            .as_slice()
    );
    Ok(())
}

#[test]
fn has_the_request_that_a_fault_names(rt: HostRuntime) -> Result<(), Fail> {
    let json = json_of(
        rt.alloc(),
        b"second reply: READ 12 of call 7, line 14\nbody is not its request's: INIT 2: 27 bytes\nno reply: LOOKUP 4 of call 1, line 2 and 3 more\n",
    )?;
    assert_eq!(rt;
        json.as_slice(),
        b"{\"event\":\"fault\",\"schema\":1,\"unique\":12,\"opcode\":\"READ\",\"call\":7,\"line\":14,\"text\":\"second reply: READ 12 of call 7, line 14\"}\n\
{\"event\":\"fault\",\"unique\":2,\"opcode\":\"INIT\",\"text\":\"body is not its request's: INIT 2: 27 bytes\"}\n\
{\"event\":\"end\",\"unique\":4,\"opcode\":\"LOOKUP\",\"call\":1,\"line\":2,\"text\":\"no reply: LOOKUP 4 of call 1, line 2 and 3 more\"}\n"
            .as_slice()
    );
    Ok(())
}

#[test]
fn waits_for_the_end_of_a_line(rt: HostRuntime) -> Result<(), Fail> {
    let json = json_of(rt.alloc(), b"call 1\ncall 2")?;
    assert_eq!(rt;
        json.as_slice(),
        b"{\"event\":\"call\",\"schema\":1,\"call\":1}\n".as_slice()
    );
    Ok(())
}
