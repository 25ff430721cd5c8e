// Arrays of any length: read from a place of a slice, and written to one.
ghost use Rattle.std.specs.Prelude.{◌≡◌, ◌++◌, ◌+◌, ◌≤◌, length, take, drop};

pub fn take_bytes<const N: usize>(s: &[u8], at: usize) -> [u8; N]
    requires { at + N ≤ length s.now }
    ensures { result ≡ take N (drop at s.now) }
{
    let mut out = [0u8; N];
    out.copy_from_slice(&s[at..at + N]);
    out
}

pub fn put_bytes<const N: usize>(buf: &mut [u8], at: usize, x: [u8; N])
    requires { at + N ≤ length buf.old }
    ensures buf_after { buf.new ≡ take at buf.old ++ x.entry ++ drop (at + N) buf.old }
    ensures x_len { length x.entry ≡ N }
{
    buf[at..at + N].copy_from_slice(&x);
}
