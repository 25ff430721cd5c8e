// Paths of up to 128 bits in 16 bytes: cut at a bit, and compared with an id.
ghost use Rattle.std.specs.Prelude.{◌≡◌, ◌%◌, ◌^◌, ◌≤◌, ◌<◌, take};
ghost use Rattle.std.specs.Bool.{beq};
ghost use Rattle.paper.specs.Hearing.{bit, bits_of, begins};
ghost use Rattle.ids.specs.Ids.{id_of};
ghost use Rattle.ids.specs.Paths.{cut};

use crate::{Id, MAX_BYTES};

// The lowest j bits of a byte, by shift and mask.
pub fn low_bits(x: u8, j: usize) -> u8
    requires { j < 8 }
    ensures { result ≡ x % 2 ^ j }
{
    x & ((1 << j) - 1)
}

// Clears bit k and the bits above it in the same byte; other bytes stay as they are.
pub fn cut(mut bytes: [u8; MAX_BYTES], k: usize) -> [u8; MAX_BYTES]
    requires { k < 128 }
    ensures { result ≡ cut bytes k }
{
    bytes[k / 8] = low_bits(bytes[k / 8], k % 8);
    bytes
}

// Whether bit k is the same in both.
pub fn agree(x: [u8; MAX_BYTES], y: [u8; MAX_BYTES], k: usize) -> bool
    requires { k < 128 }
    ensures { result ≡ beq (bit x k) (bit y k) }
{
    crate::bit_at(x, k) == crate::bit_at(y, k)
}

// Whether the id begins with the first `bits` bits of the path.
pub fn begins(id: Id, path: [u8; MAX_BYTES], bits: usize) -> bool
    requires { bits ≤ 128 }
    ensures { result ≡ begins (take bits (bits_of path)) (bits_of (id_of id)) }
{
    (0..bits).all(|k| k < 8 * id.size() && agree(path, id.bytes, k))
}
