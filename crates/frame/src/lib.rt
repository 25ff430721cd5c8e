// The writer of bench frames: the head, the payload through the part of the buffer from byte 10 on, and the check.
#![tactic(auto)]

ghost use Rattle.std.specs.Prelude.{◌≡◌, ◌++◌, ◌+◌, ◌≤◌, length, drop, replicate};
ghost use Rattle.paper.specs.Frame.{frame_bytes};
ghost use Rattle.frame.specs.Writing.{frame_of, tag_of, head_of, placed, sealed, written};

use wire::{Short, Unwritten};

// A frame's fields without its payload.
#[derive(Clone, Copy)]
pub struct Head {
    pub command: u8,
    pub status: u8,
    pub flags: u8,
    pub address: u32,
}

// Writes the first four bytes: A5, command, status and flags.
fn put_tag(buf: &mut [u8], head: Head)
    requires { 4 ≤ length buf.old }
    ensures { buf.new ≡ tag_of head ++ drop 4 buf.old }
{
    buf[0] = 0xA5;
    buf[1] = head.command;
    buf[2] = head.status;
    buf[3] = head.flags;
}

// Writes the first ten bytes of a frame with n bytes of payload.
pub fn put_head(buf: &mut [u8], head: Head, n: u16)
    requires { 10 ≤ length buf.old }
    ensures { buf.new ≡ head_of head n ++ drop 10 buf.old }
{
    put_tag(buf, head);
    wire::put(buf, 4, head.address);
    wire::put(buf, 8, n);
}

// Writes the payload: the bytes given, then pad bytes FF.
pub fn put_padded(dst: &mut [u8], bytes: &[u8], pad: usize)
    requires { length bytes.now + pad ≤ length dst.old }
    ensures { dst.new
        ≡ (bytes.now ++ replicate pad 0xFF) ++ drop (length bytes.now + pad) dst.old }
{
    let n = bytes.len();
    wire::copy(dst, bytes);
    dst[n..n + pad].fill(0xFF);
}

// Writes the check of a frame after its first n bytes, which end with its payload.
pub fn seal(buf: &mut [u8], n: usize)
    requires head { 10 ≤ n }
    requires room { n + 2 ≤ length buf.old }
    ensures { buf.new ≡ sealed n buf.old }
{
    let c = crc::crc16(crc::START, &buf[1..n]);
    wire::put(buf, n, c);
}

// Writes a frame whose payload is the bytes given, then pad bytes FF: at most 1,024 bytes.
pub fn place_frame(head: Head, bytes: &[u8], pad: usize, buf: &mut [u8]) -> Result<usize, Short>
    requires { length bytes.now + pad ≤ 1024 }
    ensures { record { answer = result; bytes = buf.new }
        ≡ placed (frame_bytes (frame_of head (bytes.now ++ replicate pad 0xFF))) buf.old }
{
    let n = bytes.len() + pad;
    if buf.len() < n + 12 {
        return Err(Short { needed: n + 12 });
    }
    put_head(buf, head, n as u16);
    put_padded(&mut buf[10..], bytes, pad);
    seal(buf, n + 10);
    Ok(n + 12)
}

// The same for any lengths: TooLong if the payload is over 1,024 bytes.
pub fn write_frame(head: Head, bytes: &[u8], pad: usize, buf: &mut [u8]) -> Result<usize, Unwritten>
    ensures { record { answer = result; bytes = buf.new }
        ≡ written (frame_of head (bytes.now ++ replicate pad 0xFF)) buf.old }
{
    let m = bytes.len();
    if wire::MAX_PAYLOAD < m {
        return Err(Unwritten::TooLong);
    }
    if wire::MAX_PAYLOAD - m < pad {
        return Err(Unwritten::TooLong);
    }
    Ok(place_frame(head, bytes, pad, buf)?)
}
