// The client's record, its front (the client without its walk), and the answers of its calls.
// A call is decided on the front. The decision says what is answered and how the walk changes.
#![tactic(auto)]

ghost use Rattle.std.specs.Prelude.{◌≡◌, cond};
ghost use Rattle.walk_table.specs.Rows.{no_table, giving};
ghost use Rattle.walk.specs.declared.Walk.{Walk};
ghost use Rattle.walk.specs.Moves.{no_walk};
ghost use Rattle.client.specs.declared.Refusal.TheVariants as Refusal;
ghost use Rattle.client.specs.Numbers.{number_of, changes_no_state};
ghost use Rattle.client.specs.Clients.{fresh, running, differs, other_for, other_image, idle, turned, begun};
ghost use Rattle.client.specs.Clients.{refuse, refuses, over, stops, onward, making, cleared, holding, attached};
ghost use Rattle.client.specs.Clients.{known};
ghost use Rattle.client.specs.Verdicts.{front_of, client_of, renewed, started_of, changed, given, told_of};

use hearing::Heard;
use ids::Id;
use image::{BadInfo, Info};
use walk::{Place, Walk};
use walk_table::{Entry, Table};

// What a Select is for. Probing: a plain select. Parting: a deselect. Seeking: an attach. Backing: the deselect of an
// attach that heard garble. Walking: a discovery. The flag of an attach says whether a prefix was given.
#[derive(Clone, Copy)]
pub enum Search {
    Probing,
    Parting,
    Seeking(bool),
    Backing(bool),
    Walking(walk::Phase),
}

// What an Info is for. Tell: its own answer. Clear: an erase. Load: a flash of an image of n bytes.
#[derive(Clone, Copy)]
pub enum Purpose {
    Tell,
    Clear,
    Load(usize),
}

// A reset into the bootloader or the app, with the baud to store if one is given. Kept as a flag beside a byte:
// `loaded` and `saved` give each its place in a state's bytes, and keep the byte of a reset that gives no baud.
#[derive(Clone, Copy)]
pub struct Reset {
    pub bootloader: bool,
    pub given: bool,
    pub baud: u8,
}

// What a request with one answer is for. An Erase has its address. A Write has the image's length, its offset, and how
// often it was repeated.
#[derive(Clone, Copy)]
pub enum Job {
    Informing(Purpose),
    Erasing(Purpose, Info, u32),
    Writing(usize, Info, u64, u8),
    Verifying(usize, Info),
    Resetting(Reset),
}

// The request that is next, or out. Demand: one with one answer. Leave: a Reset whose reply is not awaited.
#[derive(Clone, Copy)]
pub enum Phase {
    Select(Search),
    Demand(Job),
    Leave(Reset),
}

// Idle: no operation runs. Ready: its next request can be asked for. Waiting: its request is out.
#[derive(Clone, Copy)]
pub enum Turn {
    Idle,
    Ready(Phase),
    Waiting(Phase),
}

// The client without its walk. The id and its flag stand apart: `loaded` and `saved` give each its place in a state's
// bytes, and keep the id of a state without the flag. The prefix and the bit count are those of a plain select or an
// attach. A contract on a front holds for the client with any walk.
#[derive(Clone, Copy)]
pub struct Front {
    pub seed: u8,
    pub attached: bool,
    pub id: Id,
    pub turn: Turn,
    pub prefix: Id,
    pub bits: u8,
}

// The client: its front, and the walk of a discovery.
#[derive(Clone, Copy)]
pub struct Client {
    pub front: Front,
    pub walk: Walk,
}

// The refusals. Numbers.antt has their numbers in document 01. The prefix that 9 and 10 carry is a field of the answer.
#[derive(Clone, Copy)]
pub enum Refusal {
    Io,
    Device(u8),
    FirmwareTooLarge(u32, u32),
    CrcMismatch(u16, u16),
    BadInfo,
    Incompatible(u32, Option<u32>),
    NoDevice,
    SeveralDevices,
    NoSuchUid,
    AmbiguousUid,
    NotAddressable,
    DuplicateUid,
    BadPrefix,
    LongId,
    TableFull,
    ShortBuffer(usize),
    RetriesSpent,
    ShortVerify,
    SpansTooFar,
    OtherImage,
    OutOfTurn,
}

impl Refusal {
    // A refusal's number in document 01.
    #[tactic(auto, unfolding(crate::specs::Numbers::number_of))]
    pub fn number(self) -> u8
        ensures { result ≡ number_of self }
    {
        match self {
            Refusal::Io => 1,
            Refusal::Device(_) => 2,
            Refusal::FirmwareTooLarge(_, _) => 3,
            Refusal::CrcMismatch(_, _) => 4,
            Refusal::BadInfo => 5,
            Refusal::Incompatible(_, _) => 6,
            Refusal::NoDevice => 7,
            Refusal::SeveralDevices => 8,
            Refusal::NoSuchUid => 9,
            Refusal::AmbiguousUid => 10,
            Refusal::NotAddressable => 11,
            Refusal::DuplicateUid => 12,
            Refusal::BadPrefix => 13,
            Refusal::LongId => 14,
            Refusal::TableFull => 15,
            Refusal::ShortBuffer(_) => 16,
            Refusal::RetriesSpent => 17,
            Refusal::ShortVerify => 18,
            Refusal::SpansTooFar => 19,
            Refusal::OtherImage => 20,
            Refusal::OutOfTurn => 21,
        }
    }
}

impl From<BadInfo> for Refusal {
    ghost from_gives = { λ _ r. r ≡ Refusal.BadInfo };

    fn from(_: BadInfo) -> Self {
        Self::BadInfo
    }
}

// What an operation ends with. Attached says whether the pod has an id. The id heard or attached, and the ids found,
// are fields of the answer.
#[derive(Clone, Copy)]
pub enum Outcome {
    Quiet,
    Heard(Heard),
    Attached(bool),
    Found,
    Knows(Info),
    Unaddressed,
}

// The progress that a reply made: how much is done, and of how much.
#[derive(Clone, Copy)]
pub struct Progress {
    pub done: u64,
    pub total: u64,
}

// What a call says. Granted: a request of n bytes is in the buffer, and its reply is awaited. Closing: a request is in
// the buffer, and the operation has ended. Onward: the operation goes on. Over: it has ended.
#[derive(Clone, Copy)]
pub enum Says {
    Granted(usize),
    Closing(usize),
    Onward,
    Over(Outcome),
    Refused(Refusal),
}

// The answer to a start, or to asking for a request.
#[derive(Clone, Copy)]
pub struct Started {
    pub says: Says,
    pub client: Client,
}

// The answer to a record: where its unread rest begins, the progress made, and the id or prefix and the ids that belong
// to it.
#[derive(Clone, Copy)]
pub struct Told {
    pub says: Says,
    pub client: Client,
    pub rest: usize,
    pub progress: Option<Progress>,
    pub id: Id,
    pub found: Table,
}

// A start or a request, decided without the walk. If the walk begins anew, begins has its prefix: an empty one for an
// operation that is no discovery, whose walk is all zero.
#[derive(Clone, Copy)]
pub struct Opening {
    pub says: Says,
    pub front: Front,
    pub begins: Option<Id>,
}

// How a record changes the walk. Same: not at all. Moves: to another place. Keeps: to another place, with one more
// entry. Gives: it ends, and its list is returned. Clears: it ends.
#[derive(Clone, Copy)]
pub enum Change {
    Same,
    Moves(Place),
    Keeps(Place, Entry),
    Gives,
    Clears,
}

// A record, decided without the list. The id is the id or prefix that belongs to the answer.
#[derive(Clone, Copy)]
pub struct Verdict {
    pub says: Says,
    pub front: Front,
    pub change: Change,
    pub rest: usize,
    pub progress: Option<Progress>,
    pub id: Id,
}

// Whether an id is attached, and the client's id. Kept as a flag beside an id: the contract of `Client::attached` tells
// the id of a client without the flag too, and `views-saved` and `views-held` say that a host gets both.
#[derive(Clone, Copy)]
pub struct Attached {
    pub any: bool,
    pub id: Id,
}

impl Attached {
    // The attached id, if there is one.
    #[tactic(auto, unfolding(crate::specs::Clients::known))]
    pub fn known(self) -> Option<Id>
        ensures { result ≡ known self }
    {
        self.any.then_some(self.id)
    }
}

// Whether the refusal of this number leaves the state unchanged. Kept as a question on the number: the theorem
// `refused-untouched` of acceptance asks it of an exported call's code, and a host sees the number alone.
pub fn changes_no_state(number: u8) -> bool
    ensures { result ≡ changes_no_state number }
{
    matches!(number, 13 | 16 | 20 | 21)
}

// Whether an operation runs.
#[tactic(auto, unfolding(crate::specs::Clients::running))]
pub fn running(turn: Turn) -> bool
    ensures { result ≡ running turn }
{
    !matches!(turn, Turn::Idle)
}

// Whether an image of n bytes has another length than the one that a flash was started with.
#[tactic(auto, unfolding(crate::specs::Clients::differs))]
fn differs(why: Purpose, n: usize) -> bool
    ensures { result ≡ differs why n }
{
    matches!(why, Purpose::Load(m) if m != n)
}

// The same for a job. Only the jobs of a flash have an image.
#[tactic(auto, unfolding(crate::specs::Clients::other_for))]
fn other_for(job: Job, n: usize) -> bool
    ensures { result ≡ other_for job n }
{
    match job {
        Job::Informing(why) | Job::Erasing(why, ..) => differs(why, n),
        Job::Writing(m, ..) | Job::Verifying(m, _) => m != n,
        Job::Resetting(_) => false,
    }
}

// The same for any phase: false where no flash runs.
#[tactic(auto, unfolding(crate::specs::Clients::other_image))]
pub fn other_image(phase: Phase, n: usize) -> bool
    ensures { result ≡ other_image phase n }
{
    matches!(phase, Phase::Demand(job) if other_for(job, n))
}

// The client of a front and a walk.
pub fn client_of(f: Front, walk: Walk) -> Client
    ensures { result ≡ client_of f walk }
{
    Client { front: f, walk }
}

fn no_walk() -> Walk
    ensures { result ≡ no_walk }
{
    walk::walk_of(walk::no_place(), Table::none())
}

impl Client {
    #[tactic(auto, unfolding(crate::specs::Clients::fresh))]
    pub fn new() -> Client
        ensures { result ≡ fresh }
    {
        let front = Front {
            seed: 0,
            attached: false,
            id: Id::none(),
            turn: Turn::Idle,
            prefix: Id::none(),
            bits: 0,
        };
        Client {
            front,
            walk: no_walk(),
        }
    }

    // Whether an id is attached, and the client's id.
    #[tactic(auto, unfolding(crate::specs::Clients::attached))]
    pub fn attached(self) -> Attached
        ensures { result ≡ attached self }
    {
        let f = self.front;
        Attached {
            any: f.attached,
            id: f.id,
        }
    }

    // The client without its walk.
    pub fn front(self) -> Front
        ensures { result ≡ front_of self }
    {
        self.front
    }
}

impl Front {
    // The front with another turn, prefix and bit count.
    pub fn begun(self, turn: Turn, prefix: Id, bits: u8) -> Front
        ensures { (w : Walk) → client_of result w ≡ begun (client_of self w) turn prefix bits w }
    {
        Front {
            turn,
            prefix,
            bits,
            ..self
        }
    }

    // No operation runs: the prefix and the bit count are zero.
    pub fn idle(self) -> Front
        ensures { (w : Walk) → client_of result no_walk ≡ idle (client_of self w) }
    {
        self.begun(Turn::Idle, Id::none(), 0)
    }

    // The same operation in another turn.
    pub fn turned(self, turn: Turn) -> Front
        ensures { (w : Walk) → client_of result w ≡ turned (client_of self w) turn }
    {
        self.begun(turn, self.prefix, self.bits)
    }

    // With another attached id, or none.
    pub fn holding(self, any: bool, id: Id) -> Front
        ensures { (w : Walk) → client_of result w ≡ holding (client_of self w) any id }
    {
        Front {
            attached: any,
            id,
            ..self
        }
    }

    // With no attached id.
    pub fn cleared(self) -> Front
        ensures { (w : Walk) → client_of result w ≡ cleared (client_of self w) }
    {
        self.holding(false, Id::none())
    }

    // A start or a request is refused, and no state changes.
    pub fn refuse(self, r: Refusal) -> Opening
        ensures { (w : Walk) → started_of result w ≡ refuse (client_of self w) r }
    {
        Opening {
            says: Says::Refused(r),
            front: self,
            begins: None,
        }
    }

    // A record is refused, and no state changes. The unread rest is the whole record.
    pub fn refuses(self, r: Refusal) -> Verdict
        ensures { (w : Walk) → told_of result w ≡ refuses (client_of self w) r }
    {
        Verdict {
            says: Says::Refused(r),
            front: self,
            change: Change::Same,
            rest: 0,
            progress: None,
            id: Id::none(),
        }
    }

    // The operation has ended, and its walk with it.
    #[tactic(auto, unfolding(crate::specs::Clients::over))]
    fn ends(self, says: Says, id: Id, change: Change, at: usize) -> Verdict
        ensures { (w : Walk) → changed change w ≡ no_walk
            → told_of result w ≡ over (client_of self w) says id (given change w) at }
    {
        let front = self.idle();
        Verdict {
            says,
            front,
            change,
            rest: at,
            progress: None,
            id,
        }
    }

    // The operation has ended. If gives is set, its list is returned.
    pub fn over(self, says: Says, id: Id, gives: bool, at: usize) -> Verdict
        ensures { (w : Walk) → told_of result w
            ≡ over (client_of self w) says id (cond gives (giving w.found) no_table) at }
    {
        if gives {
            return self.ends(says, id, Change::Gives, at);
        }
        self.ends(says, id, Change::Clears, at)
    }

    // The operation has ended, with no id and no list in the answer.
    pub fn stops(self, says: Says, at: usize) -> Verdict
        ensures { (w : Walk) → told_of result w ≡ stops (client_of self w) says at }
    {
        self.over(says, Id::none(), false, at)
    }

    // The operation goes on with another request, and its walk changes. No list is returned.
    pub fn onward(self, phase: Phase, change: Change, at: usize) -> Verdict
        ensures { (w : Walk) → given change w ≡ no_table
            → told_of result w ≡ onward (client_of self w) phase (changed change w) at }
    {
        Verdict {
            says: Says::Onward,
            front: self.turned(Turn::Ready(phase)),
            change,
            rest: at,
            progress: None,
            id: Id::none(),
        }
    }

    // The operation goes on with another request, and its walk stays.
    pub fn stays(self, phase: Phase, at: usize) -> Verdict
        ensures { (w : Walk) → told_of result w ≡ onward (client_of self w) phase w at }
    {
        self.onward(phase, Change::Same, at)
    }
}

impl Verdict {
    // The same verdict with this progress.
    pub fn making(self, progress: Option<Progress>) -> Verdict
        ensures { (w : Walk) → told_of result w ≡ making (told_of self w) progress }
    {
        Verdict { progress, ..self }
    }
}

impl Opening {
    // The client's walk after a start or a request.
    fn walk(self, w: Walk) -> Walk
        ensures { result ≡ renewed self.begins w }
    {
        match self.begins {
            Some(from) => walk::walk_of(walk::begin(from), Table::none()),
            None => w,
        }
    }

    // The answer by value, for a client with this walk.
    pub fn started(self, w: Walk) -> Started
        ensures { result ≡ started_of self w }
    {
        Started {
            says: self.says,
            client: client_of(self.front, self.walk(w)),
        }
    }
}
