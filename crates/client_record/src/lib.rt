// Handling the record heard after a request, or a failed link.
// `decide` and `fails` need only the client's front, the walk's place and how many ids the list holds. `record` and
// `link_failed` do the same for a client by value.
#![tactic(auto)]

pub mod answer;

ghost use Rattle.std.specs.Prelude.{◌≡◌, true, false};
ghost use Rattle.paper.specs.Answers.{rest};
ghost use Rattle.hearing.specs.Heard.{kind_of, id_in};
ghost use Rattle.walk_table.specs.declared.Table.{Table};
ghost use Rattle.walk.specs.declared.Walk.{Walk};
ghost use Rattle.walk.specs.Moves.{walk_of};
ghost use Rattle.walk_step.specs.Joined.{joined};
ghost use Rattle.client.specs.Clients.{on_turn};
ghost use Rattle.client.specs.Verdicts.{client_of, changed, given, told_of};
ghost use Rattle.client_record.specs.Record.{attaches, stop_of, met, backed, walked, probed, hears, answered_to};
ghost use Rattle.client_record.specs.Record.{record', link_failed};

use client::{Change, Client, Front, Outcome, Phase, Refusal, Says, Search, Told, Turn, Verdict};
use hearing::Hearing;
use ids::Id;
use walk::{Place, Walk};
use walk_step::{End, Move};
use walk_table::{Entry, Table};

// The attach has succeeded: with the pod's id, or without one if the pod has none.
fn attaches(f: Front, any: bool, id: Id, at: usize) -> Verdict
    ensures { (w : Walk) → told_of result w ≡ attaches (client_of f w) any id at }
{
    f.holding(any, id)
        .over(Says::Over(Outcome::Attached(any)), id, false, at)
}

// What the answer says when a walk ends early.
// Kept as a function, not a `From<End>` of Says: both types are of other crates, so neither can get an impl here.
#[tactic(auto, unfolding(crate::specs::Record::stop_of))]
fn stop_of(end: End) -> Says
    ensures { result ≡ stop_of end }
{
    match end {
        End::DuplicateUid => Says::Refused(Refusal::DuplicateUid),
        End::LongId => Says::Refused(Refusal::LongId),
        End::TableFull => Says::Refused(Refusal::TableFull),
        End::Unaddressed => Says::Over(Outcome::Unaddressed),
    }
}

// Handles what an attach heard.
#[tactic(auto, unfolding(crate::specs::Record::met))]
fn met(f: Front, given: bool, h: Hearing, at: usize) -> Verdict
    ensures { (w : Walk) → told_of result w ≡ met (client_of f w) given (kind_of h) (id_in h) at }
{
    let prefix = f.prefix;
    match h {
        Hearing::Nothing => {
            if given {
                return f.over(Says::Refused(Refusal::NoSuchUid), prefix, false, at);
            }
            f.stops(Says::Refused(Refusal::NoDevice), at)
        }
        Hearing::One(id) => attaches(f, true, id, at),
        Hearing::TooLong => f.stops(Says::Refused(Refusal::LongId), at),
        Hearing::Unaddressed => {
            if given {
                return f.stops(Says::Refused(Refusal::NotAddressable), at);
            }
            attaches(f, false, Id::none(), at)
        }
        Hearing::Garble => f.stays(Phase::Select(Search::Backing(given)), at),
    }
}

// The end of an attach that heard garble, after its deselect.
#[tactic(auto, unfolding(crate::specs::Record::backed))]
fn backed(f: Front, given: bool, at: usize) -> Verdict
    ensures { (w : Walk) → told_of result w ≡ backed (client_of f w) given at }
{
    let prefix = f.prefix;
    let g = f.cleared();
    if given {
        return g.over(Says::Refused(Refusal::AmbiguousUid), prefix, false, at);
    }
    g.stops(Says::Refused(Refusal::SeveralDevices), at)
}

// The verdict for the walk's next step.
#[tactic(auto, unfolding(crate::specs::Record::walked, walk_step::specs::Joined::joined, walk_step::specs::Steps::stopped, walk_table::specs::Rows::giving))]
fn walked(f: Front, step: Result<Move, End>, at: usize) -> Verdict
    ensures { (w : Walk) → told_of result w
        ≡ walked (client_of f w) (joined step w.found).goes (joined step w.found).walk at }
{
    match step {
        Ok(Move::On(g)) => f.onward(
            Phase::Select(Search::Walking(g.phase)),
            Change::Moves(g.place),
            at,
        ),
        Ok(Move::Keeps(k, id)) => f.onward(
            Phase::Select(Search::Walking(k.phase)),
            Change::Keeps(k.place, Entry { id }),
            at,
        ),
        Ok(Move::Done) => f
            .cleared()
            .over(Says::Over(Outcome::Found), Id::none(), true, at),
        Err(end) => f.stops(stop_of(end), at),
    }
}

// Handles what a plain select heard.
#[tactic(auto, unfolding(crate::specs::Record::probed))]
fn probed(f: Front, h: Hearing, at: usize) -> Verdict
    ensures { (w : Walk) → told_of result w ≡ probed (client_of f w) (kind_of h) (id_in h) at }
{
    let kind = h.kind();
    if hearing::is_long(kind) {
        return f.stops(Says::Refused(Refusal::LongId), at);
    }
    f.over(Says::Over(Outcome::Heard(kind)), h.id(), false, at)
}

// Handles what a Select heard, by what it was for.
#[tactic(auto, unfolding(crate::specs::Record::hears))]
fn hears(f: Front, p: Place, count: usize, search: Search, h: Hearing, at: usize) -> Verdict
    ensures { (t : Table) → t.count ≡ count
        → told_of result (walk_of p t) ≡ hears (client_of f (walk_of p t)) search (kind_of h) (id_in h) at }
{
    match search {
        Search::Probing => probed(f, h, at),
        Search::Parting => f.cleared().stops(Says::Over(Outcome::Quiet), at),
        Search::Seeking(given) => met(f, given, h, at),
        Search::Backing(given) => backed(f, given, at),
        Search::Walking(q) => walked(f, walk_step::step(p, count, q, h), at),
    }
}

// Handles the record of a phase's request. The case `Leave` is not reached: such a request awaits no record.
#[tactic(auto, unfolding(crate::specs::Record::answered_to))]
fn answered(f: Front, p: Place, count: usize, phase: Phase, image: &[u8], bytes: &[u8]) -> Verdict
    ensures { (t : Table) → t.count ≡ count
        → told_of result (walk_of p t) ≡ answered_to (client_of f (walk_of p t)) phase image.now bytes.now }
{
    match phase {
        Phase::Select(search) => {
            let h = hearing::hear(bytes);
            hears(f, p, count, search, h, bytes.len())
        }
        Phase::Demand(job) => crate::answer::tells(f, job, image, bytes),
        Phase::Leave(_) => f.stops(Says::Over(Outcome::Quiet), bytes.len()),
    }
}

// Handles the record heard after the request, with the image lent. 21 is checked first, then 20, then the record.
pub fn decide(f: Front, p: Place, count: usize, image: &[u8], bytes: &[u8]) -> Verdict
    ensures { (t : Table) → t.count ≡ count
        → told_of result (walk_of p t) ≡ record' (client_of f (walk_of p t)) image.now bytes.now }
{
    match f.turn {
        Turn::Idle => f.refuses(Refusal::OutOfTurn),
        Turn::Ready(_) => f.refuses(Refusal::OutOfTurn),
        Turn::Waiting(phase) => {
            if client::other_image(phase, image.len()) {
                return f.refuses(Refusal::OtherImage);
            }
            answered(f, p, count, phase, image, bytes)
        }
    }
}

// Whether a request is out.
fn awaits(turn: Turn) -> bool
    ensures { result ≡ on_turn turn false (λ p. false) (λ p. true) }
{
    matches!(turn, Turn::Waiting(_))
}

// The link failed after the request.
#[tactic(auto, unfolding(crate::specs::Record::link_failed))]
pub fn fails(f: Front) -> Verdict
    ensures { (w : Walk) → told_of result w ≡ link_failed (client_of f w) }
{
    if awaits(f.turn) {
        return f.stops(Says::Refused(Refusal::Io), 0);
    }
    f.refuses(Refusal::OutOfTurn)
}

// The walk after a change, and the list that is returned.
#[derive(Clone, Copy)]
struct After {
    walk: Walk,
    found: Table,
}

fn walk_after(change: Change, w: Walk) -> After
    ensures { result ≡ record { walk = changed change w; found = given change w } }
{
    let none = Table::none();
    match change {
        Change::Same => After {
            walk: w,
            found: none,
        },
        Change::Moves(place) => After {
            walk: walk::walk_of(place, w.found),
            found: none,
        },
        Change::Keeps(place, entry) => After {
            walk: walk::walk_of(place, w.found.keep(entry)),
            found: none,
        },
        Change::Gives => {
            let walk = walk::walk_of(walk::no_place(), none);
            After {
                walk,
                found: w.found.give(),
            }
        }
        Change::Clears => After {
            walk: walk::walk_of(walk::no_place(), none),
            found: none,
        },
    }
}

// The answer by value, for a client with this walk.
fn told(v: Verdict, w: Walk) -> Told
    ensures { result ≡ told_of v w }
{
    let a = walk_after(v.change, w);
    Told {
        says: v.says,
        client: client::client_of(v.front, a.walk),
        rest: v.rest,
        progress: v.progress,
        id: v.id,
        found: a.found,
    }
}

// Handles the record heard after the request, for a client by value.
pub fn record(c: Client, image: &[u8], bytes: &[u8]) -> Told
    ensures { result ≡ record' c image.now bytes.now }
{
    let w = c.walk;
    told(decide(c.front(), w.place(), w.found.count, image, bytes), w)
}

// The link failed after the request, for a client by value.
pub fn link_failed(c: Client) -> Told
    ensures { result ≡ link_failed c }
{
    told(fails(c.front()), c.walk)
}

// The unread rest of the lent record, from a place on. It is empty if the place is past the end.
pub fn rest(bytes: &[u8], at: usize) -> &[u8]
    ensures { result.now ≡ rest bytes.now at }
{
    hearing::rest(bytes, at)
}
