// Writes the output of the bench log: a line for each id found, and the line of the answer.
#![tactic(auto)]

ghost use Rattle.std.specs.Prelude.{◌≡◌, [], ◌∷◌, ◌+◌, ◌*◌, ◌≤◌, ◌<◌, length};
ghost use Rattle.paper.specs.Log.{id_lines, last_line};
ghost use Rattle.ids.specs.Ids.{id_of};
ghost use Rattle.log_listing.specs.Listing.{used, first_ids, line, placed, text};

use ids::Id;
use walk_table::Table;

// The answer of a run: its number, how many Selects were handed out, and the ids found.
#[derive(Clone, Copy)]
pub struct Answer {
    pub code: u8,
    pub selects: u16,
    pub found: Table,
}

// Writes bytes as hexadecimal digits, and LF.
fn put_line(bytes: &[u8], out: &mut [u8]) -> usize
    requires bytes_len_bound { length bytes.now ≤ 16 }
    requires bytes_in_bounds { 2 * length bytes.now < length out.old }
    ensures out_after { record { len = result; bytes = out.new }
        ≡ placed (line bytes.now) out.old }
    ensures value { result ≡ 2 * length bytes.now + 1 }
{
    let n = 2 * bytes.len();
    let _ = text::uid_hex(bytes, out);
    out[n] = b'\n';
    n + 1
}

// Writes the line of an id.
fn put_id(id: Id, out: &mut [u8]) -> usize
    requires { 33 ≤ length out.old }
    ensures out_after { record { len = result; bytes = out.new } ≡ placed (line (id_of id)) out.old }
    ensures upper_bound { result ≤ 33 }
{
    put_line(id.as_slice(), out)
}

// Writes the lines of the first n ids.
fn put_ids(found: Table, n: usize, out: &mut [u8]) -> usize
    requires n_bound { n ≤ 64 }
    requires n_in_bounds { 33 * n ≤ length out.old }
    ensures out_after { record { len = result; bytes = out.new }
        ≡ placed (id_lines (first_ids found n)) out.old }
    ensures upper_bound { result ≤ 33 * n }
{
    let mut at = 0;
    for i in 0..n {
        at += put_id(found.row(i).id, &mut out[at..]);
    }
    at
}

// Writes the line of the answer: its number, the count of ids, and the Selects with the high byte first.
fn put_last(code: u8, count: u8, selects: u16, out: &mut [u8]) -> usize
    requires { 9 ≤ length out.old }
    ensures out_after { record { len = result; bytes = out.new }
        ≡ placed (last_line code count selects) out.old }
    ensures value { result ≡ 9 }
{
    let high = (selects / 256) as u8;
    let low = (selects % 256) as u8;
    let bytes = [code, count, high, low];
    put_line(&bytes, out)
}

// How many rows are in use: at most 64.
#[tactic(auto, using(std::proofs::lemmas::Bool::Decides::nat_tests), unfolding(crate::specs::Listing::used))]
fn used(found: Table) -> usize
    ensures value { result ≡ used found }
    ensures upper_bound { result ≤ 64 }
{
    found.count.min(walk_table::ROWS)
}

fn put_all(answer: Answer, out: &mut [u8]) -> usize
    requires { 2121 ≤ length out.old }
    ensures { record { len = result; bytes = out.new } ≡ placed (text answer) out.old }
{
    let n = used(answer.found);
    let at = put_ids(answer.found, n, out);
    at + put_last(answer.code, n as u8, answer.selects, &mut out[at..])
}

// Writes the whole output to the front of the buffer. It always fits: 64 lines of 33 bytes, and one of 9.
pub fn show(answer: Answer, out: &mut [u8; 2121]) -> usize
    ensures { record { len = result; bytes = out.new } ≡ placed (text answer) out.old }
{
    put_all(answer, out)
}
