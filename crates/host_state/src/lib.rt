// The client in 1,352 bytes: its front and its walk's place are loaded and saved, its list is changed in place.
// Any bytes hold some client, and zero bytes hold a fresh one.
// Kept as slices with `size ≤ length`, not as `&[u8; 1352]`: docs/CONTRACTS.md names these calls, which take longer
// buffers too, and say that the bytes past the client stay.
#![tactic(auto)]

ghost use Rattle.std.specs.Prelude.{◌≡◌, ◌++◌, ◌+◌, ◌≤◌, length, take, drop};
ghost use Rattle.paper.proofs.Words.{Bytes};
ghost use Rattle.walk_table.specs.Rows.{no_table, keeping};
ghost use Rattle.walk.specs.Moves.{place_of};
ghost use Rattle.client.specs.Verdicts.{front_of, renewed, changed};
ghost use Rattle.host_state.specs.State.{size, saved_id, saved_head, saved_front, loaded_id, loaded_table, loaded_walk};
ghost use Rattle.host_state.specs.State.{loaded, with_place, with_table, with_walk};

use client::{Change, Front};
use ids::Id;
use walk::Place;
use walk_table::Entry;

// How many bytes a client takes.
pub fn size() -> usize
    ensures { result ≡ size }
{
    1352
}

#[tactic(auto, unfolding(crate::specs::State::loaded_id))]
fn load_id(bytes: &[u8], at: usize) -> Id
    requires { at + 17 ≤ length bytes.now }
    ensures { result ≡ loaded_id at bytes.now }
{
    let b = wire::arrays::take_bytes(bytes, at);
    Id {
        bytes: b,
        len: bytes[at + 16],
    }
}

// The front of the client that some bytes hold. The second fact, that a lent slice consists of bytes, is for its
// callers.
#[tactic(auto, unfolding(crate::specs::State::loaded))]
pub fn load_front(bytes: &[u8]) -> Front
    requires { size ≤ length bytes.now }
    ensures value { result ≡ front_of (loaded bytes.now) }
    ensures bytes { Bytes bytes.now }
{
    Front {
        seed: bytes[0],
        attached: bytes[1] == 1,
        id: load_id(bytes, 2),
        turn: host_turn::turn_of(host_turn_bytes::load_flat(bytes, 19)),
        prefix: load_id(bytes, 69),
        bits: bytes[86],
    }
}

// The place of the client's walk.
#[tactic(auto, unfolding(crate::specs::State::loaded, crate::specs::State::loaded_walk))]
pub fn load_place(bytes: &[u8]) -> Place
    requires { size ≤ length bytes.now }
    ensures { result ≡ place_of (loaded bytes.now).walk }
{
    let path = wire::arrays::take_bytes(bytes, 87);
    let marks = wire::arrays::take_bytes(bytes, 111);
    Place {
        path,
        depth: wire::get::<8, u64>(bytes, 103) as usize,
        marks,
        candidate: load_id(bytes, 1335),
    }
}

// How many ids the walk's list holds.
#[tactic(auto, unfolding(crate::specs::State::loaded, crate::specs::State::loaded_walk, crate::specs::State::loaded_table))]
pub fn count(bytes: &[u8]) -> usize
    requires { size ≤ length bytes.now }
    ensures { result ≡ (loaded bytes.now).walk.found.count }
{
    wire::get::<8, u64>(bytes, 1327) as usize
}

#[tactic(auto, unfolding(crate::specs::State::saved_id))]
pub fn save_id(bytes: &mut [u8], at: usize, x: Id)
    requires { at + 17 ≤ length bytes.old }
    ensures bytes_after { bytes.new
        ≡ take at bytes.old ++ saved_id x ++ drop (at + 17) bytes.old }
    ensures x_len { length (saved_id x) ≡ 17 }
{
    wire::arrays::put_bytes(bytes, at, x.bytes);
    wire::put(bytes, at + 16, x.len);
}

// Saves what comes before the prefix: the seed, the attached id and the turn.
fn save_head(f: Front, bytes: &mut [u8])
    requires { size ≤ length bytes.old }
    ensures bytes_after { bytes.new ≡ saved_head f ++ drop 69 bytes.old }
    ensures f_len { length (saved_head f) ≡ 69 }
{
    wire::put(bytes, 0, f.seed);
    wire::put(bytes, 1, wire::flag(f.attached, 1));
    save_id(bytes, 2, f.id);
    host_turn_bytes::save_flat(bytes, 19, host_turn::flat_of(f.turn));
}

// Saves a client's front to the first 87 bytes.
pub fn save_front(f: Front, bytes: &mut [u8])
    requires { size ≤ length bytes.old }
    ensures bytes_after { bytes.new ≡ saved_front f ++ drop 87 bytes.old }
    ensures f_len { length (saved_front f) ≡ 87 }
{
    save_head(f, bytes);
    save_id(bytes, 69, f.prefix);
    wire::put(bytes, 86, f.bits);
}

// Saves the walk's place; the list stays as it is.
fn save_place(p: Place, bytes: &mut [u8])
    requires { size ≤ length bytes.old }
    ensures { bytes.new ≡ with_place p bytes.old }
{
    wire::arrays::put_bytes(bytes, 87, p.path);
    wire::put(bytes, 103, p.depth as u64);
    wire::arrays::put_bytes(bytes, 111, p.marks);
    save_id(bytes, 1335, p.candidate);
}

// Adds an entry to the list, if there is room.
fn keep(entry: Entry, bytes: &mut [u8])
    requires room { size ≤ length bytes.old }
    requires bytes { Bytes bytes.old }
    ensures { bytes.new
        ≡ with_table (keeping (loaded_table 239 bytes.old) entry) bytes.old }
{
    let n = count(bytes);
    if walk_table::ROWS <= n {
        return;
    }
    walk_table::set_row(&mut bytes[239..], n, entry);
    wire::put(bytes, 1327, n as u64 + 1);
}

// Empties the list.
fn clear(bytes: &mut [u8])
    requires { size ≤ length bytes.old }
    ensures { bytes.new ≡ with_table no_table bytes.old }
{
    bytes[239..1335].fill(0);
}

// The walk after a start or a request: a new one under the prefix given, or as it was.
pub fn renew(begins: Option<Id>, bytes: &mut [u8])
    requires room { size ≤ length bytes.old }
    requires bytes { Bytes bytes.old }
    ensures { bytes.new
        ≡ with_walk (renewed begins (loaded_walk 87 bytes.old)) bytes.old }
{
    if let Some(from) = begins {
        clear(bytes);
        save_place(walk::begin(from), bytes);
    }
}

// The walk after a record, changed as the verdict says.
pub fn apply(change: Change, bytes: &mut [u8])
    requires room { size ≤ length bytes.old }
    requires bytes { Bytes bytes.old }
    ensures { bytes.new
        ≡ with_walk (changed change (loaded_walk 87 bytes.old)) bytes.old }
{
    match change {
        Change::Same => {}
        Change::Moves(place) => save_place(place, bytes),
        Change::Keeps(place, entry) => {
            keep(entry, bytes);
            save_place(place, bytes);
        }
        Change::Gives | Change::Clears => renew(Some(Id::none()), bytes),
    }
}
