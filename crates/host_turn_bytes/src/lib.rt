// A turn's numbers in 50 bytes: saved to a place in a buffer, and loaded from one.
#![tactic(auto)]

ghost use Rattle.std.specs.Prelude.{◌≡◌, ◌++◌, ◌+◌, ◌≤◌, length, take, drop};
ghost use Rattle.host_turn_bytes.specs.TurnBytes.{tags, saved_reset, work, saved_flat, loaded_reset, loaded_flat};

use client::Reset;
use host_turn::Flat;

fn load_reset(bytes: &[u8], at: usize) -> Reset
    requires { at + 3 ≤ length bytes.now }
    ensures { result ≡ loaded_reset at bytes.now }
{
    Reset {
        bootloader: bytes[at] == 1,
        given: bytes[at + 1] == 1,
        baud: bytes[at + 2],
    }
}

pub fn load_flat(bytes: &[u8], at: usize) -> Flat
    requires { at + 50 ≤ length bytes.now }
    ensures { result ≡ loaded_flat at bytes.now }
{
    let info = image::info_bytes::load(bytes, at + 16);
    let reset = load_reset(bytes, at + 47);
    Flat {
        turn: bytes[at],
        kind: bytes[at + 1],
        search: bytes[at + 2],
        given: bytes[at + 3] == 1,
        step: bytes[at + 4],
        other: bytes[at + 5] == 1,
        job: bytes[at + 6],
        purpose: bytes[at + 7],
        size: wire::get::<8, u64>(bytes, at + 8) as usize,
        info,
        address: wire::get(bytes, at + 34),
        offset: wire::get(bytes, at + 38),
        retries: bytes[at + 46],
        reset,
    }
}

// The eight bytes that say which turn it is.
fn save_tags(bytes: &mut [u8], at: usize, f: Flat)
    requires { at + 8 ≤ length bytes.old }
    ensures { bytes.new
        ≡ take at bytes.old ++ tags f ++ drop (at + 8) bytes.old }
{
    let given = wire::flag(f.given, 1);
    let other = wire::flag(f.other, 1);
    let x = [
        f.turn, f.kind, f.search, given, f.step, other, f.job, f.purpose,
    ];
    wire::arrays::put_bytes(bytes, at, x);
}

fn save_reset(bytes: &mut [u8], at: usize, z: Reset)
    requires { at + 3 ≤ length bytes.old }
    ensures { bytes.new
        ≡ take at bytes.old ++ saved_reset z ++ drop (at + 3) bytes.old }
{
    wire::put(bytes, at, wire::flag(z.bootloader, 1));
    wire::put(bytes, at + 1, wire::flag(z.given, 1));
    wire::put(bytes, at + 2, z.baud);
}

// How far a job has come: the erase address, the write offset and its retries; and the reset's arguments.
fn save_work(bytes: &mut [u8], at: usize, f: Flat)
    requires { at + 16 ≤ length bytes.old }
    ensures { bytes.new
        ≡ take at bytes.old ++ work f ++ drop (at + 16) bytes.old }
{
    let reset = f.reset;
    wire::put(bytes, at, f.address);
    wire::put(bytes, at + 4, f.offset);
    wire::put(bytes, at + 12, f.retries);
    save_reset(bytes, at + 13, reset);
}

pub fn save_flat(bytes: &mut [u8], at: usize, f: Flat)
    requires { at + 50 ≤ length bytes.old }
    ensures { bytes.new
        ≡ take at bytes.old ++ saved_flat f ++ drop (at + 50) bytes.old }
{
    let info = f.info;
    save_tags(bytes, at, f);
    wire::put(bytes, at + 8, f.size as u64);
    image::info_bytes::save(bytes, at + 16, info);
    save_work(bytes, at + 34, f);
}
