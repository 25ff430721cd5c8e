// How an exported call changes the buffers that a host lends, and the code that it returns.
#![tactic(auto)]

pub mod codes;

ghost use Rattle.std.specs.Prelude.{◌≡◌, ◌≤◌, length, IfSome, IfNone};
ghost use Rattle.paper.proofs.Words.{Bytes};
ghost use Rattle.walk.specs.Moves.{place_of};
ghost use Rattle.client.specs.Verdicts.{front_of, started_of, given, told_of};
ghost use Rattle.host_state.specs.State as State;
ghost use Rattle.host_state.specs.State.{loaded};
ghost use Rattle.host_answer.specs.AnswerBytes as Answer;
ghost use Rattle.host_answer.specs.AnswerBytes.{listed};
ghost use Rattle.host_buffers.specs.Hosts.{short_code, leaves, told_by, shows, said_of, Starts, Tells};

use client::{Change, Front, Opening, Outcome, Refusal, Says, Verdict};
use hearing::Heard;
use ids::Id;
use walk::Place;

// The code for a state or an answer's buffer of these lengths that is too short; none if both are long enough.
#[tactic(auto, unfolding(crate::specs::Hosts::short_code, crate::specs::Hosts::lent))]
pub fn short_code(state: usize, answer: usize) -> Option<u64>
    ensures code { result ≡ short_code state answer }
    ensures state_room { IfNone result (State.size ≤ state) }
    ensures answer_room { IfNone result (Answer.size ≤ answer) }
{
    let client = host_state::size();
    let whole = host_answer::size();
    if state < client {
        return Some(crate::codes::coded(16, client as u64));
    }
    if answer < whole {
        return Some(crate::codes::coded(16, whole as u64));
    }
    None
}

// Writes the answer's list: the walk's, if the change gives it; else an empty one.
fn lists(change: Change, state: &[u8], answer: &mut [u8])
    requires state_room { State.size ≤ length state.now }
    requires answer_room { Answer.size ≤ length answer.old }
    ensures { answer.new
        ≡ listed (given change (loaded state.now).walk) answer.old }
{
    match change {
        Change::Gives => host_answer::write_list(state, answer),
        _ => host_answer::no_list(answer),
    }
}

// Writes the answer, then saves the client's front and the change of its walk. After a refusal that changes no state,
// the state is not written.
pub fn told(v: Verdict, state: &mut [u8], answer: &mut [u8]) -> u64
    requires state_room { State.size ≤ length state.old }
    requires bytes { Bytes state.old }
    requires answer_room { Answer.size ≤ length answer.old }
    ensures { record { code = result; state = state.new; answer = answer.new }
        ≡ leaves (told_of v (loaded state.old).walk) state.old answer.old }
{
    let note = host_answer::numbers::note_of(v.says);
    host_answer::write_front(note, v.progress, v.id, v.rest, answer);
    lists(v.change, state, answer);
    let code = crate::codes::coded(note.number, note.length);
    if client::changes_no_state(note.number) {
        return code;
    }
    host_state::apply(v.change, state);
    host_state::save_front(v.front, state);
    code
}

// A record or a failed link: the call decides on the front, the walk's place and how many ids the list holds. Nothing
// is decided or written if a buffer is too short.
pub fn telling<F: FnOnce(Front, Place, usize) -> Verdict>(
    state: &mut [u8],
    answer: &mut [u8],
    decide: F,
) -> u64
    requires { F.pre decide (front_of (loaded state.old)) (place_of (loaded state.old).walk)
        (loaded state.old).walk.found.count }
    ensures short { IfSome (short_code (length state.old) (length answer.old)) (λ code. result ≡ code) }
    ensures left { Tells (λ v. F.post decide (front_of (loaded state.old)) (place_of (loaded state.old).walk)
        (loaded state.old).walk.found.count v) state.old answer.old
        (record { code = result; state = state.new; answer = answer.new }) }
{
    if let Some(short) = short_code(state.len(), answer.len()) {
        return short;
    }
    let verdict = decide(
        host_state::load_front(state),
        host_state::load_place(state),
        host_state::count(state),
    );
    told(verdict, state, answer)
}

// The same as `told` for a start or a request: its answer has no progress, id or list.
pub fn started(o: Opening, state: &mut [u8], answer: &mut [u8]) -> u64
    requires state_room { State.size ≤ length state.old }
    requires bytes { Bytes state.old }
    requires answer_room { Answer.size ≤ length answer.old }
    ensures { record { code = result; state = state.new; answer = answer.new }
        ≡ leaves (told_by (started_of o (loaded state.old).walk)) state.old
        answer.old }
{
    let n = host_answer::numbers::note_of(o.says);
    host_answer::write_front(n, None, Id::none(), 0, answer);
    host_answer::no_list(answer);
    let code = crate::codes::coded(n.number, n.length);
    if client::changes_no_state(n.number) {
        return code;
    }
    host_state::renew(o.begins, state);
    host_state::save_front(o.front, state);
    code
}

// A start: the call decides on the front. Nothing is decided or written if a buffer is too short.
pub fn starting<F: FnOnce(Front) -> Opening>(state: &mut [u8], answer: &mut [u8], decide: F) -> u64
    requires { F.pre decide (front_of (loaded state.old)) }
    ensures short { IfSome (short_code (length state.old) (length answer.old)) (λ code. result ≡ code) }
    ensures left { Starts (λ o. F.post decide (front_of (loaded state.old)) o) state.old answer.old
        (record { code = result; state = state.new; answer = answer.new }) }
{
    if let Some(short) = short_code(state.len(), answer.len()) {
        return short;
    }
    started(decide(host_state::load_front(state)), state, answer)
}

// Writes only an answer, with an id.
pub fn shows(says: Says, id: Id, answer: &mut [u8]) -> u64
    requires { Answer.size ≤ length answer.old }
    ensures { record { code = result; bytes = answer.new } ≡ shows says id answer.old }
{
    let n = host_answer::numbers::note_of(says);
    host_answer::write_front(n, None, id, 0, answer);
    host_answer::no_list(answer);
    crate::codes::coded(n.number, n.length)
}

// The answer of a plain select that heard `h`.
#[tactic(auto, unfolding(crate::specs::Hosts::said_of))]
pub fn said_of(h: Heard) -> Says
    ensures { result ≡ said_of h }
{
    if hearing::is_long(h) {
        return Says::Refused(Refusal::LongId);
    }
    Says::Over(Outcome::Heard(h))
}
