// The reader of bench frames: it finds the next A5 from a place of a record on, and reads the frame there.
#![tactic(auto)]

ghost use Rattle.std.specs.Prelude.{◌≡◌, ◌+◌, ◌≤◌, ◌<◌, ◌^◌, length, drop};
ghost use Rattle.paper.specs.Frame.{skipped, right_check, read_sized, read_synced, read};
ghost use Rattle.reader.specs.Shown.{fields_at, shown_from};

// A frame's fields, and the places in the record where its payload begins and where the frame ends.
#[derive(Clone, Copy)]
pub struct Frame {
    pub command: u8,
    pub status: u8,
    pub flags: u8,
    pub address: u32,
    pub payload: usize,
    pub len: usize,
    pub end: usize,
}

// Why no whole frame was read. BadCheck: the check is wrong; the fields are still read.
#[derive(Clone, Copy)]
pub enum Unread {
    Short,
    TooLong,
    BadCheck(Frame),
}

// How many bytes come before the first A5; all of them if there is none.
fn skipped(s: &[u8]) -> usize
    ensures value { result ≡ skipped s.now }
    ensures upper_bound { result ≤ length s.now }
{
    s.iter().position(|b| *b == 0xA5).unwrap_or(s.len())
}

// The fields of a frame with n bytes of payload. s begins with its A5; base is where s begins in the record. Kept as a
// slice with its place beside, here and in the two readers below: a type of both is no plainer for three functions.
fn fields(s: &[u8], base: usize, n: usize) -> Frame
    requires n_in_bounds { 12 + n ≤ length s.now }
    requires s_bound { base + length s.now < 2 ^ 64 }
    ensures { result ≡ fields_at base n s.now }
{
    Frame {
        command: s[1],
        status: s[2],
        flags: s[3],
        address: wire::get(s, 4),
        payload: base + 10,
        len: n,
        end: base + (12 + n),
    }
}

// Whether the check after n bytes of payload is right.
fn right_check(s: &[u8], n: usize) -> bool
    requires { 12 + n ≤ length s.now }
    ensures { result ≡ right_check n s.now }
{
    let e = 10 + n;
    let c = crc::crc16(crc::START, &s[1..e]);
    c == wire::get(s, e)
}

// Reads a frame whose head says n bytes of payload. s and base as above.
fn read_sized(s: &[u8], base: usize, n: u16) -> Result<Frame, Unread>
    requires { base + length s.now < 2 ^ 64 }
    ensures { result ≡ shown_from base (read_sized 0 n s.now) }
{
    let len = n as usize;
    let size = 12 + len;
    if wire::MAX_PAYLOAD < len {
        return Err(Unread::TooLong);
    }
    if s.len() < size {
        return Err(Unread::Short);
    }
    let f = fields(s, base, len);
    if right_check(s, len) {
        Ok(f)
    } else {
        Err(Unread::BadCheck(f))
    }
}

// Reads the frame at the front of s. s begins with its A5, or is empty; base is where s begins in the record.
fn read_synced(s: &[u8], base: usize) -> Result<Frame, Unread>
    requires { base + length s.now < 2 ^ 64 }
    ensures { result ≡ shown_from base (read_synced 0 s.now) }
{
    if s.len() < 10 {
        return Err(Unread::Short);
    }
    read_sized(s, base, wire::get(s, 8))
}

// Reads the next frame from a place of the record on; Short if the place is past the end.
pub fn read(bytes: &[u8], at: usize) -> Result<Frame, Unread>
    ensures { result ≡ shown_from at (read (drop at bytes.now)) }
{
    if bytes.len() < at {
        return Err(Unread::Short);
    }
    let from = at + skipped(&bytes[at..]);
    read_synced(&bytes[from..], from)
}
