// An answer as numbers and flags of fixed widths. A field that the answer does not have is zero.
ghost use Rattle.std.specs.Prelude.{false, ◌≡◌};
ghost use Rattle.host_answer.specs.Numbers.{going, ending, refusing, heard_tag, outcome_note};
ghost use Rattle.host_answer.specs.Numbers.{refusal_note, note_of, gain_of};

use client::{Outcome, Progress, Refusal, Says};
use hearing::Heard;
use image::Info;

// `number` is 0, or document 01's number. `says`, `outcome` and `heard` say which answer it is. The rest is what it
// carries. Kept as numbers and flags, as `heard_tag` below: `numbered` gives each its place in an answer's bytes, which
// bindings/fahireky.h has for C.
#[derive(Clone, Copy)]
pub struct Note {
    pub number: u8,
    pub says: u8,
    pub outcome: u8,
    pub heard: u8,
    pub any: bool,
    pub key: bool,
    pub length: u64,
    pub first: u32,
    pub second: u32,
    pub info: Info,
}

// The progress made, if any. Kept as a flag beside two numbers: `numbered` gives each its place in an answer's bytes.
#[derive(Clone, Copy)]
pub struct Gain {
    pub made: bool,
    pub done: u64,
    pub total: u64,
}

// The numbers of a call after which the operation goes on, or which hands out a request of this length.
fn going(says: u8, length: u64) -> Note
    ensures { result ≡ going says length }
{
    let info = image::info_bytes::none();
    Note {
        number: 0,
        says,
        outcome: 0,
        heard: 0,
        any: false,
        key: false,
        length,
        first: 0,
        second: 0,
        info,
    }
}

// The numbers of an operation that has ended.
fn ending(number: u8, outcome: u8, heard: u8, any: bool, info: Info) -> Note
    ensures { result ≡ ending number outcome heard any info }
{
    Note {
        number,
        says: 2,
        outcome,
        heard,
        any,
        key: false,
        length: 0,
        first: 0,
        second: 0,
        info,
    }
}

// The numbers of a refusal: the buffer length needed, and the two numbers that it carries.
fn refusing(number: u8, key: bool, length: u64, first: u32, second: u32) -> Note
    ensures { result ≡ refusing number key length first second }
{
    let info = image::info_bytes::none();
    Note {
        number,
        says: 3,
        outcome: 0,
        heard: 0,
        any: false,
        key,
        length,
        first,
        second,
        info,
    }
}

// A refusal that carries nothing.
fn nothing(number: u8) -> Note
    ensures { result ≡ refusing number false 0 0 0 }
{
    refusing(number, false, 0, 0, 0)
}

fn heard_tag(h: Heard) -> u8
    ensures { result ≡ heard_tag h }
{
    match h {
        Heard::Nothing => 0,
        Heard::One => 1,
        Heard::TooLong => 2,
        Heard::Unaddressed => 3,
        Heard::Garble => 4,
    }
}

fn outcome_note(o: Outcome) -> Note
    ensures { result ≡ outcome_note o }
{
    match o {
        Outcome::Quiet => ending(0, 0, 0, false, image::info_bytes::none()),
        Outcome::Heard(h) => ending(0, 1, heard_tag(h), false, image::info_bytes::none()),
        Outcome::Attached(any) => ending(0, 2, 0, any, image::info_bytes::none()),
        Outcome::Found => ending(0, 3, 0, false, image::info_bytes::none()),
        Outcome::Knows(info) => ending(0, 4, 0, false, info),
        Outcome::Unaddressed => ending(23, 5, 0, false, image::info_bytes::none()),
    }
}

fn refusal_note(r: Refusal, number: u8) -> Note
    ensures { result ≡ refusal_note number r }
{
    match r {
        Refusal::Io => nothing(number),
        Refusal::Device(status) => refusing(number, false, 0, status as u32, 0),
        Refusal::FirmwareTooLarge(size, capacity) => refusing(number, false, 0, size, capacity),
        Refusal::CrcMismatch(expected, actual) => refusing(
            number,
            false,
            0,
            expected as u32,
            actual as u32,
        ),
        Refusal::BadInfo => nothing(number),
        Refusal::Incompatible(device, k) => refusing(
            number,
            k.is_some(),
            0,
            device,
            k.unwrap_or(0),
        ),
        Refusal::NoDevice => nothing(number),
        Refusal::SeveralDevices => nothing(number),
        Refusal::NoSuchUid => nothing(number),
        Refusal::AmbiguousUid => nothing(number),
        Refusal::NotAddressable => nothing(number),
        Refusal::DuplicateUid => nothing(number),
        Refusal::BadPrefix => nothing(number),
        Refusal::LongId => nothing(number),
        Refusal::TableFull => nothing(number),
        Refusal::ShortBuffer(n) => refusing(number, false, n as u64, 0, 0),
        Refusal::RetriesSpent => nothing(number),
        Refusal::ShortVerify => nothing(number),
        Refusal::SpansTooFar => nothing(number),
        Refusal::OtherImage => nothing(number),
        Refusal::OutOfTurn => nothing(number),
    }
}

// The numbers of an answer.
pub fn note_of(says: Says) -> Note
    ensures { result ≡ note_of says }
{
    match says {
        Says::Granted(n) => going(1, n as u64),
        Says::Closing(n) => going(4, n as u64),
        Says::Onward => going(0, 0),
        Says::Over(o) => outcome_note(o),
        Says::Refused(r) => refusal_note(r, r.number()),
    }
}

// The numbers of the progress made.
#[tactic(auto, unfolding(crate::specs::Numbers::gain_of))]
pub fn gain_of(p: Option<Progress>) -> Gain
    ensures { result ≡ gain_of p }
{
    match p {
        None => Gain {
            made: false,
            done: 0,
            total: 0,
        },
        Some(Progress { done, total }) => Gain {
            made: true,
            done,
            total,
        },
    }
}
