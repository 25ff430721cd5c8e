// The codes that exported calls return: for answers, for ids as text and as bytes, and for keys.
ghost use Rattle.std.specs.Prelude.{◌≡◌};
ghost use Rattle.host_buffers.specs.Codes.{coded, written_code, put_uid, read_uid, key_code};

use ids::Id;
use text::BadText;
use wire::Unwritten;

// A code: the number in the low byte, the length above it.
pub fn coded(number: u8, length: u64) -> u64
    ensures { result ≡ coded number length }
{
    number as u64 + 256 * (length % 0x100_0000_0000_0000)
}

// The code of a writer's answer.
pub fn written_code(w: Result<usize, Unwritten>) -> u64
    ensures { result ≡ written_code w }
{
    match w {
        Ok(n) => coded(0, n as u64),
        Err(Unwritten::Short(n)) => coded(16, n as u64),
        Err(Unwritten::TooLong) => coded(13, 0),
    }
}

// Copies an id's bytes to the front of the buffer, or refuses with the length needed.
fn put_uid(x: Id, out: &mut [u8]) -> u64
    ensures { record { code = result; bytes = out.new } ≡ put_uid x out.old }
{
    let n = x.size();
    if out.len() < n {
        return coded(16, n as u64);
    }
    out[..n].copy_from_slice(x.as_slice());
    coded(0, n as u64)
}

// The code of a text that was parsed; the id goes to the front of the buffer.
pub fn read_uid(parsed: Result<Id, BadText>, out: &mut [u8]) -> u64
    ensures { record { code = result; bytes = out.new } ≡ read_uid parsed out.old }
{
    match parsed {
        Ok(x) => put_uid(x, out),
        Err(BadText) => coded(22, 0),
    }
}

// A key, with bit 32 set to say that there is one.
#[tactic(auto, unfolding(crate::specs::Codes::key_code))]
pub fn key_code(key: Option<u32>) -> u64
    ensures { result ≡ key_code key }
{
    match key {
        Some(x) => u64::from(x) + 0x1_0000_0000,
        None => 0,
    }
}
