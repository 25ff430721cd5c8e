// Standard output of the programs: bytes in hexadecimal.
#![tactic(auto)]

use std::io;

// Two digits for each byte.
pub fn print_hex(out: &impl Print, bytes: &[u8]) -> io::Result<()> {
    for b in bytes {
        print!(out; "{b:02x}")?;
    }
    Ok(())
}

// The first n bytes; nothing if there are fewer.
pub fn print_front(out: &impl Print, bytes: &[u8], n: usize) -> io::Result<()> {
    match bytes.get(..n) {
        Some(front) => print_hex(out, front),
        None => Ok(()),
    }
}
