// The writer of a Select: seed, bit count and prefix bits, through the part of the buffer from byte 10 on.
#![tactic(auto)]

ghost use Rattle.std.specs.Prelude.{◌≡◌, cond, [], ◌∷◌, ◌++◌, ◌+◌, ◌/◌, ◌%◌, ◌≤◌, ◌<◌, length, drop, eqb};
ghost use Rattle.paper.specs.Frame.{frame_bytes};
ghost use Rattle.paper.specs.Hearing.{packed, select_payload, select_frame};
ghost use Rattle.ids.specs.Ids.{bit_of, set_bit};
ghost use Rattle.frame.specs.Writing.{placed};
ghost use Rattle.select.specs.Selects.{asked, bytes_for};

use frame::Head;
use wire::Short;

// How many bytes hold count bits.
fn bytes_for(count: u8) -> usize
    ensures value { result ≡ bytes_for count }
    ensures upper_bound { result ≤ 32 }
{
    (count as usize + 7) / 8
}

// Sets bit k of dst, by shift and mask, if bit k mod 8 of x is 1.
fn put_bit(dst: &mut [u8], x: u8, k: usize)
    requires { k / 8 < length dst.old }
    ensures { dst.new
        ≡ cond (eqb (bit_of x (k % 8)) 1) (set_bit dst.old k) dst.old }
{
    if ids::bit_of(x, k % 8) == 1 {
        dst[k / 8] |= 1 << (k % 8);
    }
}

// Writes the first count bits, in as few bytes as hold them: the bytes are zeroed, then each bit that is 1 is set. A
// zero byte has no bit to set and is skipped. There are no bits after the sixteenth byte.
fn put_bits(dst: &mut [u8], bits: [u8; ids::MAX_BYTES], count: u8)
    requires { bytes_for count ≤ length dst.old }
    ensures { dst.new
        ≡ packed (bytes_for count) (asked bits count) ++ drop (bytes_for count) dst.old }
{
    dst[..bytes_for(count)].fill(0);
    let n = count as usize;
    for (i, x) in bits.iter().enumerate() {
        if *x == 0 {
            continue;
        }
        for k in 8 * i..8 * i + 8 {
            if n <= k {
                return;
            }
            put_bit(dst, *x, k);
        }
    }
}

fn put_pair(dst: &mut [u8], a: u8, b: u8)
    requires { 2 ≤ length dst.old }
    ensures { dst.new ≡ (a ∷ b ∷ []) ++ drop 2 dst.old }
{
    dst[0] = a;
    dst[1] = b;
}

// Writes the payload: seed, bit count, then the bits in as few bytes as hold them, spare bits 0.
fn put_select(dst: &mut [u8], seed: u8, bits: [u8; ids::MAX_BYTES], count: u8)
    requires { 2 + bytes_for count ≤ length dst.old }
    ensures { dst.new
        ≡ select_payload seed (asked bits count) ++ drop (2 + bytes_for count) dst.old }
{
    put_pair(dst, seed, count);
    put_bits(&mut dst[2..], bits, count);
}

// Writes a Select of the first count bits; bits after the sixteenth byte are zero.
pub fn write_select(
    seed: u8,
    bits: [u8; ids::MAX_BYTES],
    count: u8,
    buf: &mut [u8],
) -> Result<usize, Short>
    ensures { record { answer = result; bytes = buf.new }
        ≡ placed (frame_bytes (select_frame seed (asked bits count))) buf.old }
{
    let n = 2 + bytes_for(count);
    if buf.len() < n + 12 {
        return Err(Short { needed: n + 12 });
    }
    let head = Head {
        command: wire::SELECT,
        status: wire::REQUEST,
        flags: 0,
        address: 0,
    };
    frame::put_head(buf, head, n as u16);
    put_select(&mut buf[10..], seed, bits, count);
    frame::seal(buf, n + 10);
    Ok(n + 12)
}
