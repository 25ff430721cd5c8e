// Starting an operation: a call out of turn is refused first, then bad arguments.
// `open_..` decides a start on the client's front. `start_..` does the same for a client by value.
#![tactic(auto)]

ghost use Rattle.std.specs.Prelude.{◌≡◌};
ghost use Rattle.walk.specs.declared.Walk.{Walk};
ghost use Rattle.walk.specs.Moves.{begin};
ghost use Rattle.client.specs.declared.Opening.{Opening};
ghost use Rattle.client.specs.Verdicts.{front_of, client_of, started_of};
ghost use Rattle.client_start.specs.Start.{starts, demands, bad_prefix, start_select, start_deselect, start_attach};
ghost use Rattle.client_start.specs.Start.{start_attach_to, start_discover, start_info, start_erase, start_flash};
ghost use Rattle.client_start.specs.Start.{resets, start_reset, start_set_baud};

use client::{
    Client, Front, Job, Opening, Phase, Purpose, Refusal, Reset, Says, Search, Started, Turn,
};
use ids::Id;

// The answer by value to a start that is decided on the client's front.
fn by_value<F: FnOnce(Front) -> Opening>(c: Client, decide: F) -> Started
    requires { F.pre decide (front_of c) }
    ensures { (o : Opening) × F.post decide (front_of c) o × (result ≡ started_of o c.walk) }
{
    decide(c.front()).started(c.walk)
}

// Starts an operation in its first phase, with a walk under a prefix, unless one runs.
#[tactic(auto, unfolding(crate::specs::Start::starts))]
fn starts(f: Front, phase: Phase, prefix: Id, bits: u8, from: Id) -> Opening
    ensures { (w : Walk) → started_of result w ≡ starts (client_of f w) phase prefix bits (begin from) }
{
    if client::running(f.turn) {
        return f.refuse(Refusal::OutOfTurn);
    }
    let front = f.begun(Turn::Ready(phase), prefix, bits);
    Opening {
        says: Says::Onward,
        front,
        begins: Some(from),
    }
}

// Starts an operation without a prefix or a walk.
#[tactic(auto, using(crate::proofs::Ways::begins), unfolding(crate::specs::Start::demands))]
fn demands(f: Front, phase: Phase) -> Opening
    ensures { (w : Walk) → started_of result w ≡ demands (client_of f w) phase }
{
    starts(f, phase, Id::none(), 0, Id::none())
}

// Refuses a bad prefix. A call out of turn is refused before that.
#[tactic(auto, unfolding(crate::specs::Start::bad_prefix))]
fn bad_prefix(f: Front) -> Opening
    ensures { (w : Walk) → started_of result w ≡ bad_prefix (client_of f w) }
{
    f.refuse(if client::running(f.turn) {
        Refusal::OutOfTurn
    } else {
        Refusal::BadPrefix
    })
}

// A plain select of the first bits of a prefix.
#[tactic(auto, using(crate::proofs::Ways::begins), unfolding(crate::specs::Start::start_select))]
pub fn open_select(f: Front, prefix: &[u8], bits: usize) -> Opening
    ensures { (w : Walk) → started_of result w ≡ start_select (client_of f w) prefix.now bits }
{
    if ids::MAX_BYTES < prefix.len() || 8 * prefix.len() < bits {
        return bad_prefix(f);
    }
    starts(
        f,
        Phase::Select(Search::Probing),
        Id::of(prefix),
        bits as u8,
        Id::none(),
    )
}

pub fn start_select(c: Client, prefix: &[u8], bits: usize) -> Started
    ensures { result ≡ start_select c prefix.now bits }
{
    by_value(c, |f| open_select(f, prefix, bits))
}

#[tactic(auto, using(crate::proofs::Ways::begins), unfolding(crate::specs::Start::start_deselect))]
pub fn open_deselect(f: Front) -> Opening
    ensures { (w : Walk) → started_of result w ≡ start_deselect (client_of f w) }
{
    starts(f, Phase::Select(Search::Parting), Id::none(), 0, Id::none())
}

pub fn start_deselect(c: Client) -> Started
    ensures { result ≡ start_deselect c }
{
    by_value(c, |f| open_deselect(f))
}

// Attach to the only pod on the wire.
#[tactic(auto, using(crate::proofs::Ways::begins), unfolding(crate::specs::Start::start_attach))]
pub fn open_attach(f: Front) -> Opening
    ensures { (w : Walk) → started_of result w ≡ start_attach (client_of f w) }
{
    starts(
        f,
        Phase::Select(Search::Seeking(false)),
        Id::none(),
        0,
        Id::none(),
    )
}

pub fn start_attach(c: Client) -> Started
    ensures { result ≡ start_attach c }
{
    by_value(c, |f| open_attach(f))
}

// Attach to the one pod whose id begins with a prefix.
#[tactic(auto, using(crate::proofs::Ways::begins), unfolding(crate::specs::Start::start_attach_to))]
pub fn open_attach_to(f: Front, prefix: &[u8]) -> Opening
    ensures { (w : Walk) → started_of result w ≡ start_attach_to (client_of f w) prefix.now }
{
    if ids::MAX_BYTES < prefix.len() {
        return bad_prefix(f);
    }
    starts(
        f,
        Phase::Select(Search::Seeking(true)),
        Id::of(prefix),
        0,
        Id::none(),
    )
}

pub fn start_attach_to(c: Client, prefix: &[u8]) -> Started
    ensures { result ≡ start_attach_to c prefix.now }
{
    by_value(c, |f| open_attach_to(f, prefix))
}

// Find every pod whose id begins with a prefix.
#[tactic(auto, unfolding(crate::specs::Start::start_discover))]
pub fn open_discover(f: Front, prefix: &[u8]) -> Opening
    ensures { (w : Walk) → started_of result w ≡ start_discover (client_of f w) prefix.now }
{
    if ids::MAX_BYTES < prefix.len() {
        return bad_prefix(f);
    }
    starts(
        f,
        Phase::Select(Search::Walking(walk::Phase::Asked)),
        Id::none(),
        0,
        Id::of(prefix),
    )
}

pub fn start_discover(c: Client, prefix: &[u8]) -> Started
    ensures { result ≡ start_discover c prefix.now }
{
    by_value(c, |f| open_discover(f, prefix))
}

// Ask for the device information.
#[tactic(auto, unfolding(crate::specs::Start::start_info))]
pub fn open_info(f: Front) -> Opening
    ensures { (w : Walk) → started_of result w ≡ start_info (client_of f w) }
{
    demands(f, Phase::Demand(Job::Informing(Purpose::Tell)))
}

pub fn start_info(c: Client) -> Started
    ensures { result ≡ start_info c }
{
    by_value(c, |f| open_info(f))
}

// Erase the whole app region.
#[tactic(auto, unfolding(crate::specs::Start::start_erase))]
pub fn open_erase(f: Front) -> Opening
    ensures { (w : Walk) → started_of result w ≡ start_erase (client_of f w) }
{
    demands(f, Phase::Demand(Job::Informing(Purpose::Clear)))
}

pub fn start_erase(c: Client) -> Started
    ensures { result ≡ start_erase c }
{
    by_value(c, |f| open_erase(f))
}

// Flash an image. The host lends an image of this length to each call until the flash has ended.
#[tactic(auto, unfolding(crate::specs::Start::start_flash))]
pub fn open_flash(f: Front, image: &[u8]) -> Opening
    ensures { (w : Walk) → started_of result w ≡ start_flash (client_of f w) image.now }
{
    demands(f, Phase::Demand(Job::Informing(Purpose::Load(image.len()))))
}

pub fn start_flash(c: Client, image: &[u8]) -> Started
    ensures { result ≡ start_flash c image.now }
{
    by_value(c, |f| open_flash(f, image))
}

// In the bootloader the reply is awaited. Otherwise the operation ends when the request is handed out.
#[tactic(auto, unfolding(crate::specs::Start::resets))]
fn resets(f: Front, reset: Reset, in_boot: bool) -> Opening
    ensures { (w : Walk) → started_of result w ≡ resets (client_of f w) reset in_boot }
{
    if in_boot {
        return demands(f, Phase::Demand(Job::Resetting(reset)));
    }
    demands(f, Phase::Leave(reset))
}

// Reset into the bootloader or the app.
#[tactic(auto, unfolding(crate::specs::Start::start_reset))]
pub fn open_reset(f: Front, bootloader: bool, in_boot: bool) -> Opening
    ensures { (w : Walk) → started_of result w ≡ start_reset (client_of f w) bootloader in_boot }
{
    let reset = Reset {
        bootloader,
        given: false,
        baud: 0,
    };
    resets(f, reset, in_boot)
}

pub fn start_reset(c: Client, bootloader: bool, in_boot: bool) -> Started
    ensures { result ≡ start_reset c bootloader in_boot }
{
    by_value(c, |f| open_reset(f, bootloader, in_boot))
}

// Store a baud for the bootloader, then reset.
#[tactic(auto, unfolding(crate::specs::Start::start_set_baud))]
pub fn open_set_baud(f: Front, baud: u8, bootloader: bool, in_boot: bool) -> Opening
    ensures { (w : Walk) → started_of result w ≡ start_set_baud (client_of f w) baud bootloader in_boot }
{
    let reset = Reset {
        bootloader,
        given: true,
        baud,
    };
    resets(f, reset, in_boot)
}

pub fn start_set_baud(c: Client, baud: u8, bootloader: bool, in_boot: bool) -> Started
    ensures { result ≡ start_set_baud c baud bootloader in_boot }
{
    by_value(c, |f| open_set_baud(f, baud, bootloader, in_boot))
}
