// Asking for the next request, which is written to the front of the buffer.
// `ask` decides it on the client's front and the walk's place. `request` does the same for a client by value.
#![tactic(auto)]

ghost use Rattle.std.specs.Prelude.{◌≡◌};
ghost use Rattle.paper.specs.Frame.{frame_bytes};
ghost use Rattle.frame.specs.Writing.{placed};
ghost use Rattle.walk_table.specs.declared.Table.{Table};
ghost use Rattle.walk.specs.declared.Walk.{Walk};
ghost use Rattle.walk.specs.Moves.{walk_of};
ghost use Rattle.client.specs.Verdicts.{client_of, started_of};
ghost use Rattle.client_request.specs.Request.{asks, next_seed, search_frame, frame_of, handing, handed, granted};
ghost use Rattle.client_request.specs.Request.{asked_for, request};

use client::{Client, Front, Opening, Phase, Refusal, Says, Search, Started, Turn};
use ids::Id;
use walk::{Ask, Place};
use wire::Short;

fn next_seed(seed: u8) -> u8
    ensures { result ≡ next_seed seed }
{
    std::num::wrapping_add_u8(seed, 1)
}

// The bits that a Select asks for.
#[tactic(auto, unfolding(crate::specs::Request::asks))]
fn asks(f: Front, p: Place, search: Search) -> Ask
    ensures { (t : Table) → result ≡ asks (client_of f (walk_of p t)) search }
{
    let prefix = f.prefix;
    // Kept as a local: the borrow checker does not yet cover a literal's array that is another field's value straight.
    let bits = prefix.bytes;
    match search {
        Search::Probing => Ask {
            bits,
            count: f.bits as usize,
        },
        Search::Parting => walk::nobody(),
        Search::Seeking(_) => Ask {
            bits,
            count: 8 * prefix.size(),
        },
        Search::Backing(_) => walk::nobody(),
        Search::Walking(q) => p.asks(q),
    }
}

// Hands out a request of n bytes. A Select's seed becomes the client's. A Reset that is not awaited ends the operation.
fn handed(f: Front, phase: Phase, n: usize) -> Opening
    ensures { (w : Walk) → started_of result w
        ≡ record { says = handing phase n; client = handed (client_of f w) phase } }
{
    match phase {
        Phase::Select(_) => {
            let front = Front {
                seed: next_seed(f.seed),
                ..f.turned(Turn::Waiting(phase))
            };
            Opening {
                says: Says::Granted(n),
                front,
                begins: None,
            }
        }
        Phase::Demand(_) => Opening {
            says: Says::Granted(n),
            front: f.turned(Turn::Waiting(phase)),
            begins: None,
        },
        Phase::Leave(_) => Opening {
            says: Says::Closing(n),
            front: f.idle(),
            begins: Some(Id::none()),
        },
    }
}

// The request is handed out if it was written. If the buffer was too short, it is refused.
#[tactic(auto, unfolding(crate::specs::Request::granted))]
fn granted(f: Front, phase: Phase, placed: Result<usize, Short>) -> Opening
    ensures { (w : Walk) → started_of result w ≡ granted (client_of f w) phase placed }
{
    match placed {
        Ok(n) => handed(f, phase, n),
        Err(short) => f.refuse(Refusal::ShortBuffer(short.needed)),
    }
}

// Writes the Select of a search, with the next seed.
#[tactic(auto, unfolding(crate::specs::Request::search_frame))]
fn write_search(f: Front, p: Place, search: Search, buffer: &mut [u8]) -> Result<usize, Short>
    ensures { (t : Table) → record { answer = result; bytes = buffer.new }
        ≡ placed (frame_bytes (search_frame (client_of f (walk_of p t)) search)) buffer.old }
{
    let a = asks(f, p, search);
    select::write_select(next_seed(f.seed), a.bits, (a.count % 256) as u8, buffer)
}

// Writes the request of a phase.
#[tactic(auto, unfolding(crate::specs::Request::frame_of))]
fn write_request(
    f: Front,
    p: Place,
    phase: Phase,
    image: &[u8],
    buffer: &mut [u8],
) -> Result<usize, Short>
    ensures { (t : Table) → record { answer = result; bytes = buffer.new }
        ≡ placed (frame_bytes (frame_of (client_of f (walk_of p t)) phase image.now)) buffer.old }
{
    match phase {
        Phase::Select(search) => write_search(f, p, search, buffer),
        Phase::Demand(job) => client_demand::write_demand(job, image, buffer),
        Phase::Leave(reset) => client_demand::write_reset(reset, buffer),
    }
}

// Writes the request of a phase, and hands it out if the buffer holds it.
fn asked(f: Front, p: Place, phase: Phase, image: &[u8], buffer: &mut [u8]) -> Opening
    ensures { (t : Table) → record { answer = started_of result (walk_of p t); bytes = buffer.new }
        ≡ asked_for (client_of f (walk_of p t)) phase image.now buffer.old }
{
    let placed = write_request(f, p, phase, image, buffer);
    granted(f, phase, placed)
}

// Asks for the next request, on the front and the walk's place. 21 is checked first, then 20, then 16.
#[tactic(auto, unfolding(crate::specs::Request::request))]
pub fn ask(f: Front, p: Place, image: &[u8], buffer: &mut [u8]) -> Opening
    ensures { (t : Table) → record { answer = started_of result (walk_of p t); bytes = buffer.new }
        ≡ request (client_of f (walk_of p t)) image.now buffer.old }
{
    match f.turn {
        Turn::Idle => f.refuse(Refusal::OutOfTurn),
        Turn::Ready(phase) => {
            if client::other_image(phase, image.len()) {
                return f.refuse(Refusal::OtherImage);
            }
            asked(f, p, phase, image, buffer)
        }
        Turn::Waiting(_) => f.refuse(Refusal::OutOfTurn),
    }
}

// Asks for the next request of a client by value.
pub fn request(c: Client, image: &[u8], buffer: &mut [u8]) -> Started
    ensures { record { answer = result; bytes = buffer.new }
        ≡ request c image.now buffer.old }
{
    ask(c.front(), c.walk.place(), image, buffer).started(c.walk)
}
