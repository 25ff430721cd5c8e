// Ids as hexadecimal text, written and read.
#![tactic(auto)]

ghost use Rattle.std.specs.Prelude.{◌≡◌, ◌++◌, ◌+◌, ◌*◌, ◌≤◌, ◌<◌, length, drop, MatchOption};
ghost use Rattle.paper.specs.Text.{hex_digit, digit, hex_text, parse_uid};
ghost use Rattle.text.specs.Texts.{written, parsed};

use ids::Id;
use wire::Unwritten;

// A text that is no id: refusal 22.
#[derive(Clone, Copy, PartialEq, Eq)]
pub struct BadText;

// The lower case digit of a value below 16.
#[tactic(auto, unfolding(paper::specs::Text::hex_digit))]
pub fn hex_digit(v: u8) -> u8
    requires { v < 16 }
    ensures { result ≡ hex_digit v }
{
    if v < 10 { b'0' + v } else { b'a' + (v - 10) }
}

// The value of a digit in either letter case.
#[tactic(auto, using(std::proofs::lemmas::Bool::Decides::nat_tests), unfolding(paper::specs::Text::digit))]
pub fn digit(c: u8) -> Option<u8>
    ensures { MatchOption result (digit c ≡ 16) (λ v. (v ≡ digit c) × (v < 16)) }
{
    match c {
        b'0'..=b'9' => Some(c - b'0'),
        b'A'..=b'F' => Some(c - b'A' + 10),
        b'a'..=b'f' => Some(c - b'a' + 10),
        _ => None,
    }
}

// Writes the digits of each byte to the front of the text.
fn put_hex(text: &mut [u8], bytes: &[u8])
    requires bytes_len_bound { length bytes.now ≤ 16 }
    requires bytes_in_bounds { 2 * length bytes.now ≤ length text.old }
    ensures { text.new
        ≡ hex_text bytes.now ++ drop (2 * length bytes.now) text.old }
{
    for (i, b) in bytes.iter().enumerate() {
        text[2 * i] = hex_digit(b / 16);
        text[2 * i + 1] = hex_digit(b % 16);
    }
}

// Writes an id in lower case hexadecimal. TooLong is refusal 13 (over 16 bytes), Short is 16 (the text buffer is too
// short); 13 goes before 16.
pub fn uid_hex(id: &[u8], text: &mut [u8]) -> Result<usize, Unwritten>
    ensures { record { answer = result; bytes = text.new } ≡ written id.now text.old }
{
    let n = id.len();
    if ids::MAX_BYTES < n {
        return Err(Unwritten::TooLong);
    }
    if text.len() < 2 * n {
        return Err(Unwritten::Short(2 * n));
    }
    put_hex(text, id);
    Ok(2 * n)
}

// Reads an id from a text. BadText for an odd length, for over 32 digits and for a bad digit.
pub fn parse_uid(text: &[u8]) -> Result<Id, BadText>
    ensures { result ≡ parsed (parse_uid text.now) }
{
    let (pairs, odd) = text.as_chunks::<2>();
    if ids::MAX_BYTES < pairs.len() || !odd.is_empty() {
        return Err(BadText);
    }
    let mut bytes = [0u8; ids::MAX_BYTES];
    for (i, [h, l]) in pairs.iter().enumerate() {
        bytes[i] = digit(*h).ok_or(BadText)? * 16 + digit(*l).ok_or(BadText)?;
    }
    Ok(Id {
        bytes,
        len: pairs.len() as u8,
    })
}
