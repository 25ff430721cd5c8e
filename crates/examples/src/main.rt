// Prints document 01's examples that a program compares, and some frames as written and as heard.
// tests/vectors.py computes what this must print.
#![tactic(auto)]

use frame::Head;
use hearing::Hearing;
use std::io;

// Prints a frame with address 0, written with its padding, and what its bytes are heard as.
fn print_frame(
    out: &impl Print,
    name: &str,
    command: u8,
    status: u8,
    payload: &[u8],
    pad: usize,
) -> io::Result<()> {
    let mut room = [0u8; 64];
    let head = Head {
        command,
        status,
        flags: 0,
        address: 0,
    };
    let w = frame::write_frame(head, payload, pad, &mut room);
    print!(out; "{name}")?;
    if let Ok(n) = w {
        show::print_front(out, &room, n)?;
        print!(out; "\n")?;
        print_heard(out, &room, n)?;
    }
    Ok(())
}

fn print_heard(out: &impl Print, bytes: &[u8], n: usize) -> io::Result<()> {
    let Some(front) = bytes.get(..n) else {
        return Ok(());
    };
    match hearing::hear(front) {
        Hearing::Nothing => print!(out; "  heard: nothing\n"),
        Hearing::One(id) => {
            print!(out; "  heard: one ")?;
            show::print_front(out, &id.bytes, id.size())?;
            print!(out; "\n")
        }
        Hearing::TooLong => print!(out; "  heard: too long\n"),
        Hearing::Unaddressed => print!(out; "  heard: unaddressed\n"),
        Hearing::Garble => print!(out; "  heard: garble\n"),
    }
}

fn main(rt: HostRuntime) -> io::Result<()> {
    let c = crc::crc16(crc::START, b"123456789");
    print!(rt; "check of 123456789: {c:04x}\n")?;
    print_frame(&rt, "Info request: ", 0, 0, b"", 0)?;
    print_frame(&rt, "Select reply, Ok: ", 5, 1, b"abc", 0)?;
    print_frame(&rt, "Select reply, Ok, of the empty id: ", 5, 1, b"", 0)?;
    print_frame(&rt, "Select reply, Unsupported: ", 5, 2, b"", 0)?;
    print_frame(&rt, "Write of one byte, padded: ", 2, 0, b"a", 3)?;
    print_frame(&rt, "reply of another status: ", 5, 7, b"", 0)
}
