// The check: CRC-16/IBM-3740.
#![tactic(auto)]

ghost use Rattle.std.specs.Prelude.{◌≡◌};
ghost use Rattle.paper.specs.Frame.{crc_byte, crc_from};

// The start value of the check of a frame or an image.
pub const START: u16 = 0xFFFF;

// The register after one byte, eight bits at once. x is the high byte XORed with the new byte, and y is x with its own
// feedback. The last line applies the polynomial 1021 to y.
pub fn crc_byte(c: u16, b: u8) -> u16
    ensures { result ≡ crc_byte c b }
{
    let x = (c >> 8) ^ (b as u16);
    let y = x ^ (x >> 4);
    (y << 12) ^ (y << 5) ^ y ^ (c << 8)
}

// The register after two bytes, sixteen bits at once.
pub fn crc_pair(c: u16, a: u8, b: u8) -> u16
    ensures { result ≡ crc_byte (crc_byte c a) b }
{
    let x = c ^ ((a as u16) << 8) ^ (b as u16);
    let y = x ^ (x >> 4) ^ (x >> 8) ^ (x >> 11) ^ (x >> 12);
    (y << 12) ^ (y << 5) ^ y
}

// The check of some bytes, from a start value.
pub fn crc16(start: u16, bytes: &[u8]) -> u16
    ensures { result ≡ crc_from start bytes.now }
{
    let (pairs, last) = bytes.as_chunks::<2>();
    let mut c = start;
    for [a, b] in pairs {
        c = crc_pair(c, *a, *b);
    }
    for b in last {
        c = crc_byte(c, *b);
    }
    c
}
