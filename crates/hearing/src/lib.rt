// Reading a record: what a Select hears in it, the frame that answers any other request, and the unread rest.
#![tactic(auto)]

ghost use Rattle.std.specs.Prelude.{◌≡◌, ◌+◌, ◌≤◌, length, take, drop};
ghost use Rattle.paper.specs.Hearing.{hear};
ghost use Rattle.paper.specs.Answers.{answer, rest};
ghost use Rattle.hearing.specs.Heard.{is_long, Within, kind_of, id_in, noted, one_heard, concluded, shown_heard};
ghost use Rattle.hearing.specs.Heard.{replied_by, shown_answer};

use ids::Id;
use reader::{Frame, Unread};

// What one Select heard. An id over 16 bytes is TooLong.
#[derive(Clone, Copy)]
pub enum Hearing {
    Nothing,
    One(Id),
    TooLong,
    Unaddressed,
    Garble,
}

// Its kind. An answer to a host has the kind and the id apart, and says_back of
// crates/host_theory/proofs/BuffersRead.antt reads the kind back without the id.
#[derive(Clone, Copy)]
pub enum Heard {
    Nothing,
    One,
    TooLong,
    Unaddressed,
    Garble,
}

// The replies among the frames read so far.
// Kept as an enum of its own: an Option in a Result says three cases in two types, and is no plainer.
#[derive(Clone, Copy)]
pub enum Replies {
    None,
    One(Frame),
    Several,
}

// A reply with status Ok: where its payload begins in the record, the payload's length, and the end of the frame.
#[derive(Clone, Copy)]
pub struct Reply {
    pub payload: usize,
    pub len: usize,
    pub end: usize,
}

// Why a request other than a Select has no such reply. Lost: no frame answers. Device: a status other than Ok (3 for a
// bad check), and the end of the frame.
#[derive(Clone, Copy)]
pub enum NoReply {
    Lost,
    Device(u8, usize),
}

impl Hearing {
    pub fn kind(self) -> Heard
        ensures { result ≡ kind_of self }
    {
        match self {
            Hearing::Nothing => Heard::Nothing,
            Hearing::One(_) => Heard::One,
            Hearing::TooLong => Heard::TooLong,
            Hearing::Unaddressed => Heard::Unaddressed,
            Hearing::Garble => Heard::Garble,
        }
    }

    // The id heard, or no id.
    pub fn id(self) -> Id
        ensures { result ≡ id_in self }
    {
        match self {
            Hearing::One(id) => id,
            _ => Id::none(),
        }
    }
}

// The replies after one more frame. An echo (a frame of status Request) is no reply.
#[tactic(auto, unfolding(crate::specs::Heard::noted))]
pub fn noted(replies: Replies, f: Frame) -> Replies
    ensures { result ≡ noted replies f }
{
    if f.status == wire::REQUEST {
        return replies;
    }
    match replies {
        Replies::None => Replies::One(f),
        Replies::One(_) => Replies::Several,
        Replies::Several => Replies::Several,
    }
}

// The hearing of one reply with status Ok, whose payload is the id.
#[tactic(auto, unfolding(crate::specs::Heard::one_heard))]
fn one_heard(bytes: &[u8], at: usize, len: usize) -> Hearing
    requires { at + len ≤ length bytes.now }
    ensures { result ≡ one_heard (take len (drop at bytes.now)) }
{
    if ids::MAX_BYTES < len {
        return Hearing::TooLong;
    }
    let e = at + len;
    Hearing::One(Id::of(&bytes[at..e]))
}

// What is heard once every frame of the record is read.
#[tactic(auto, unfolding(crate::specs::Heard::concluded))]
fn concluded(bytes: &[u8], replies: Replies) -> Hearing
    requires { Within bytes.now replies }
    ensures { result ≡ concluded bytes.now replies }
{
    match replies {
        Replies::None => Hearing::Nothing,
        Replies::Several => Hearing::Garble,
        Replies::One(f) => {
            if f.status == wire::OK {
                return one_heard(bytes, f.payload, f.len);
            }
            if f.status == wire::UNSUPPORTED {
                return Hearing::Unaddressed;
            }
            Hearing::Garble
        }
    }
}

// What a Select hears in its record.
pub fn hear(bytes: &[u8]) -> Hearing
    ensures { result ≡ shown_heard (hear bytes.now) }
{
    let mut at = 0;
    let mut replies = Replies::None;
    while at < bytes.len() {
        let r = reader::read(bytes, at);
        let Ok(f) = r else {
            return Hearing::Garble;
        };
        if f.payload != at + 10 {
            return Hearing::Garble;
        }
        replies = noted(replies, f);
        at = f.end;
    }
    concluded(bytes, replies)
}

// The answer to a request: that of the first frame that is no echo.
pub fn answer(bytes: &[u8]) -> Result<Reply, NoReply>
    ensures { result ≡ shown_answer (answer bytes.now) }
{
    let mut at = 0;
    loop {
        match reader::read(bytes, at) {
            Ok(f) => {
                if f.status != wire::REQUEST {
                    break replied(f);
                }
                at = f.end;
            }
            Err(Unread::BadCheck(bad)) => {
                if bad.status != wire::REQUEST {
                    break Err(NoReply::Device(wire::CRC_MISMATCH, bad.end));
                }
                at = bad.end;
            }
            Err(Unread::Short) => break Err(NoReply::Lost),
            Err(Unread::TooLong) => break Err(NoReply::Lost),
        }
    }
}

// The answer of a whole frame that is no echo.
#[tactic(auto, unfolding(crate::specs::Heard::replied_by))]
fn replied(f: Frame) -> Result<Reply, NoReply>
    ensures { result ≡ replied_by f }
{
    if f.status != wire::OK {
        return Err(NoReply::Device(f.status, f.end));
    }
    Ok(Reply {
        payload: f.payload,
        len: f.len,
        end: f.end,
    })
}

// The unread rest of the lent record; empty if the place is past the end.
pub fn rest(bytes: &[u8], at: usize) -> &[u8]
    ensures { result.now ≡ rest bytes.now at }
{
    if at <= bytes.len() {
        &bytes[at..]
    } else {
        &bytes[..0]
    }
}

// Whether an id over 16 bytes was heard.
#[tactic(auto, unfolding(crate::specs::Heard::is_long))]
pub fn is_long(h: Heard) -> bool
    ensures { result ≡ is_long h }
{
    matches!(h, Heard::TooLong)
}
