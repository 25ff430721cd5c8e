// The bytes of an answer: its numbers, the place of the unread rest, the progress made, the id and the list of ids.
// Kept as slices with `size ≤ length`: docs/CONTRACTS.md names `write_front`, `no_list` and `write_list`, which take
// longer buffers too, and say that the bytes past the answer stay.
#![tactic(auto)]

pub mod numbers;

ghost use Rattle.std.specs.Prelude.{◌≡◌, ◌++◌, ◌≤◌, length, take, drop};
ghost use Rattle.walk_table.specs.Rows.{no_table, giving};
ghost use Rattle.host_state.specs.State as State;
ghost use Rattle.host_state.specs.State.{loaded_table};
ghost use Rattle.host_answer.specs.AnswerBytes.{size, tagged, sizes, pair, numbered, fronted, listed};

use crate::numbers::{Gain, Note};
use client::Progress;
use ids::Id;

// How many bytes an answer takes.
pub fn size() -> usize
    ensures { result ≡ size }
{
    1179
}

// Bytes 0 to 7: which answer it is, and its flags.
fn write_tags(n: Note, g: Gain, out: &mut [u8])
    requires { size ≤ length out.old }
    ensures { out.new ≡ tagged n g ++ drop 8 out.old }
{
    let any = wire::flag(n.any, 1);
    let made = wire::flag(g.made, 1);
    let key = wire::flag(n.key, 1);
    let x = [n.number, n.says, n.outcome, n.heard, any, made, key, 0];
    wire::arrays::put_bytes(out, 0, x);
}

// Bytes 8 to 39: the four numbers of 8 bytes.
fn write_sizes(n: Note, g: Gain, rest: usize, out: &mut [u8])
    requires { size ≤ length out.old }
    ensures { out.new ≡ take 8 out.old ++ sizes n g rest ++ drop 40 out.old }
{
    wire::put(out, 8, rest as u64);
    wire::put(out, 16, n.length);
    wire::put(out, 24, g.done);
    wire::put(out, 32, g.total);
}

// Bytes 40 to 47: the two numbers of 4 bytes.
fn write_pair(n: Note, out: &mut [u8])
    requires { size ≤ length out.old }
    ensures { out.new ≡ take 40 out.old ++ pair n ++ drop 48 out.old }
{
    wire::put(out, 40, n.first);
    wire::put(out, 44, n.second);
}

// Bytes 0 to 65: all numbers of the answer.
fn write_numbers(n: Note, g: Gain, rest: usize, out: &mut [u8])
    requires { size ≤ length out.old }
    ensures { out.new ≡ numbered n g rest ++ drop 66 out.old }
{
    let info = n.info;
    write_tags(n, g, out);
    write_sizes(n, g, rest, out);
    write_pair(n, out);
    image::info_bytes::save(out, 48, info);
}

// Bytes 0 to 82: the answer without its list.
pub fn write_front(n: Note, progress: Option<Progress>, id: Id, rest: usize, out: &mut [u8])
    requires { size ≤ length out.old }
    ensures { out.new ≡ fronted n progress id rest ++ drop 83 out.old }
{
    let g = crate::numbers::gain_of(progress);
    write_numbers(n, g, rest, out);
    host_state::save_id(out, 66, id);
}

// Writes an empty list.
pub fn no_list(out: &mut [u8])
    requires { size ≤ length out.old }
    ensures { out.new ≡ listed no_table out.old }
{
    out[83..1179].fill(0);
}

// Writes the list of a client's bytes, sorted; an empty one if its count is over 64.
pub fn write_list(bytes: &[u8], out: &mut [u8])
    requires state_room { State.size ≤ length bytes.now }
    requires answer_room { size ≤ length out.old }
    ensures { out.new ≡ listed (giving (loaded_table 239 bytes.now)) out.old }
{
    let n = host_state::count(bytes);
    if walk_table::ROWS < n {
        no_list(out);
        return;
    }
    wire::copy(&mut out[83..], &bytes[239..1327]);
    walk_table::sort(&mut out[83..], n);
    wire::put(out, 1171, n as u64);
}
