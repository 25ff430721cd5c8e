// Document 01's numbers, little-endian numbers in slices, bytes copied, and why a writer writes nothing.
#![tactic(auto)]

pub mod arrays;

ghost use Rattle.std.specs.Prelude.{ℕ, List, ◌≡◌, refl, cond, [], ◌∷◌, ◌++◌, ◌+◌, ◌^◌, ◌≤◌, ◌<◌, length, take, drop};
ghost use Rattle.paper.specs.Frame.{le, number, field};
ghost use Rattle.wire.specs.Words.{one_byte};
ghost use Rattle.wire.specs.declared.Unwritten.{Unwritten};

// The longest payload of a frame, in bytes.
pub const MAX_PAYLOAD: usize = 1024;

// The commands.
pub const INFO: u8 = 0;

pub const ERASE: u8 = 1;

pub const WRITE: u8 = 2;

pub const VERIFY: u8 = 3;

pub const RESET: u8 = 4;

pub const SELECT: u8 = 5;

// The statuses.
pub const REQUEST: u8 = 0;

pub const OK: u8 = 1;

pub const UNSUPPORTED: u8 = 2;

pub const CRC_MISMATCH: u8 = 3;

// The flags: FLUSH of the last Write; BOOTLOADER and BAUD of a Reset.
pub const FLUSH: u8 = 1;

pub const BOOTLOADER: u8 = 1;

pub const BAUD: u8 = 2;

// The buffer is too short for what is to be written: how many bytes it needs.
#[derive(Clone, Copy, Debug, PartialEq, Eq)]
pub struct Short {
    pub needed: usize,
}

// Why a writer wrote nothing: the buffer is too short, with how many bytes it needs, or the input is too long for any
// buffer.
#[derive(Clone, Copy, Debug, PartialEq, Eq)]
pub enum Unwritten {
    Short(usize),
    TooLong,
}

impl From<Short> for Unwritten {
    ghost from_gives = { λ short why. why ≡ Unwritten.Short short.needed };

    fn from(short: Short) -> Unwritten {
        Unwritten::Short(short.needed)
    }
}

// The value of a flag if it is set, else 0.
pub fn flag(on: bool, value: u8) -> u8
    ensures { result ≡ cond on value 0 }
{
    if on {
        return value;
    }
    0
}

// A number of N bytes, lowest byte first.
pub trait Word<const N: usize>: Copy {
    // The number that it is.
    ghost value: { Self → ℕ };

    ghost bytes: { Self → List ℕ };

    fn of_bytes(b: &[u8; N]) -> Self
        ensures { value result ≡ number b.now };

    fn to_bytes(self) -> [u8; N]
        ensures { result ≡ bytes self };

    ghost lowest_first: { (x : Self) → value x < 256 ^ N → bytes x ≡ le N (value x) };
}

impl Word<1> for u8 {
    ghost value = { λ x. x };

    ghost bytes = { λ x. x ∷ [] };

    ghost lowest_first = { one_byte };

    fn of_bytes(b: &[u8; 1]) -> u8 {
        b[0]
    }

    fn to_bytes(self) -> [u8; 1] {
        [self]
    }
}

impl Word<2> for u16 {
    ghost value = { λ x. x };

    ghost bytes = { le 2 };

    ghost lowest_first = { λ x fits. refl };

    fn of_bytes(b: &[u8; 2]) -> u16 {
        u16::from_le_bytes(*b)
    }

    fn to_bytes(self) -> [u8; 2] {
        u16::to_le_bytes(self)
    }
}

impl Word<4> for u32 {
    ghost value = { λ x. x };

    ghost bytes = { le 4 };

    ghost lowest_first = { λ x fits. refl };

    fn of_bytes(b: &[u8; 4]) -> u32 {
        u32::from_le_bytes(*b)
    }

    fn to_bytes(self) -> [u8; 4] {
        u32::to_le_bytes(self)
    }
}

impl Word<8> for u64 {
    ghost value = { λ x. x };

    ghost bytes = { le 8 };

    ghost lowest_first = { λ x fits. refl };

    fn of_bytes(b: &[u8; 8]) -> u64 {
        u64::from_le_bytes(*b)
    }

    fn to_bytes(self) -> [u8; 8] {
        u64::to_le_bytes(self)
    }
}

// The number at a place of a slice.
pub fn get<const N: usize, W: Word<N>>(s: &[u8], at: usize) -> W
    requires { at + N ≤ length s.now }
    ensures { W.value result ≡ field at N s.now }
{
    W::of_bytes(&arrays::take_bytes(s, at))
}

// Writes a number to a place of a buffer.
pub fn put<const N: usize, W: Word<N>>(buf: &mut [u8], at: usize, x: W)
    requires { at + N ≤ length buf.old }
    ensures { buf.new ≡ take at buf.old ++ W.bytes x ++ drop (at + N) buf.old }
{
    arrays::put_bytes(buf, at, x.to_bytes());
}

// Writes src to the front of dst. Kept as a loop: with the library's copy_from_slice in its two callers, an archive for
// C needs memmove from outside.
pub fn copy(dst: &mut [u8], src: &[u8])
    requires { length src.now ≤ length dst.old }
    ensures { dst.new ≡ src.now ++ drop (length src.now) dst.old }
{
    for (i, b) in src.iter().enumerate() {
        dst[i] = *b;
    }
}
