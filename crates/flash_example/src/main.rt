// Drives a flash to its end with a pod that answers Ok: document 01's example of 5 bytes in a capacity of 6.
// tests/vectors.py computes what this must print.
#![tactic(auto)]

use client::{Client, Outcome, Progress, Says};
use frame::Head;
use std::io;

// A reply of status Ok.
fn reply(command: u8, payload: &[u8], room: &mut [u8]) -> usize {
    let head = Head {
        command,
        status: wire::OK,
        flags: 0,
        address: 0,
    };
    frame::write_frame(head, payload, 0, room).unwrap_or(0)
}

// The pod: capacity 6, erase size 4, payloads of at most 4 bytes, compat unset. It verifies with the image's check.
fn pod(command: u8, room: &mut [u8]) -> usize {
    match command {
        wire::INFO => reply(
            wire::INFO,
            b"\x06\x00\x00\x00\x04\x00\x01\x00\x02\x00\x00\xff\xff\xff\xff\xff\x04\x00",
            room,
        ),
        wire::VERIFY => {
            let c = crc::crc16(crc::START, b"abcde");
            let mut check = [0u8; 2];
            wire::put(&mut check, 0, c);
            reply(wire::VERIFY, &check, room)
        }
        _ => reply(command, b"", room),
    }
}

fn print_progress(out: &impl Print, p: Option<Progress>) -> io::Result<()> {
    if let Some(Progress { done, total }) = p {
        print!(out; "  done {done:x} of {total:x}\n")?;
    }
    Ok(())
}

fn print_says(out: &impl Print, says: Says) -> io::Result<()> {
    if let Says::Over(Outcome::Knows(info)) = says {
        let version = info.boot_version;
        print!(out; "flashed: boot version {version:x}\n")?;
    }
    Ok(())
}

// Hands the pod's reply to the client.
fn told(out: &impl Print, c: Client, command: u8) -> io::Result<Client> {
    let mut room = [0u8; 64];
    let n = pod(command, &mut room);
    let Some(bytes) = room.get(..n) else {
        return Ok(c);
    };
    let t = client_record::record(c, b"abcde", bytes);
    print_progress(out, t.progress)?;
    print_says(out, t.says)?;
    Ok(t.client)
}

// One request and its reply.
fn round(out: &impl Print, c: Client) -> io::Result<Client> {
    let mut room = [0u8; 64];
    let s = client_request::request(c, b"abcde", &mut room);
    if let Says::Granted(n) = s.says {
        show::print_front(out, &room, n)?;
        print!(out; "\n")?;
        return told(out, s.client, room[1]);
    }
    Ok(s.client)
}

fn main(rt: HostRuntime) -> io::Result<()> {
    let mut c = client_start::start_flash(Client::new(), b"abcde").client;
    for _ in 0..6 {
        c = round(&rt, c)?;
    }
    Ok(())
}
