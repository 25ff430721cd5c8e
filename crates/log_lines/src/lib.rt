// Reads lines of hexadecimal, in pieces of any length and in constant memory, into a buffer that the caller lends.
#![tactic(auto)]

ghost use Rattle.std.specs.Prelude.{◌≡◌, take, drop};
ghost use Rattle.log_lines.specs.Reading.{turn, step, keep, halts, feed};

// Where in a line the reader is. Start: at its start. Even: after whole bytes. Odd: after a byte's first digit.
#[derive(Clone, Copy)]
pub enum Place {
    Start,
    Even,
    Odd(u8),
}

// What a character is. Half: the first digit of a byte. Whole: the second, with the value of the byte. Line: the end of
// a line. Empty: an empty line. Bad: a bad character.
#[derive(Clone, Copy)]
pub enum Turn {
    Half(u8),
    Whole(u8),
    Line,
    Empty,
    Bad,
}

// An event of the reader. More: none yet. Line: the end of a line. Empty: an empty line. Bad: a bad character.
#[derive(Clone, Copy)]
pub enum Event {
    More,
    Line,
    Empty,
    Bad,
}

// The first len bytes of the buffer are those read so far. If over is set, there was no room for a byte.
#[derive(Clone, Copy)]
pub struct Reader {
    pub place: Place,
    pub len: usize,
    pub over: bool,
}

// The reader after one character, and the event.
#[derive(Clone, Copy)]
pub struct Step {
    pub reader: Reader,
    pub event: Event,
}

// The reader after a piece, how far it read, and the event.
#[derive(Clone, Copy)]
pub struct Fed {
    pub reader: Reader,
    pub at: usize,
    pub event: Event,
}

// The first n bytes, or all if there are fewer.
pub fn front(s: &[u8], n: usize) -> &[u8]
    ensures { result.now ≡ take n s.now }
{
    &s[..n.min(s.len())]
}

// What a character is at a place in a line.
#[tactic(auto, using(std::proofs::lemmas::Bool::Decides::nat_tests), unfolding(crate::specs::Reading::turn))]
pub fn taken(p: Place, b: u8) -> Turn
    ensures { result ≡ turn p b }
{
    if b == b'\n' {
        return match p {
            Place::Start => Turn::Empty,
            Place::Even => Turn::Line,
            Place::Odd(_) => Turn::Bad,
        };
    }
    match text::digit(b) {
        Some(d) => match p {
            Place::Start | Place::Even => Turn::Half(d),
            Place::Odd(h) => Turn::Whole(h % 16 * 16 + d),
        },
        None => Turn::Bad,
    }
}

// Whether reading stops after a character. At the end of a line it goes on if lines are joined and there was room.
pub fn halts(e: Event, joined: bool, over: bool) -> bool
    ensures { result ≡ halts e joined over }
{
    match e {
        Event::More => false,
        Event::Line => over || !joined,
        Event::Empty | Event::Bad => true,
    }
}

impl Reader {
    // Adds a byte to the buffer. If there is no room, only over is set.
    #[tactic(auto, using(std::proofs::lemmas::Bool::Decides::nat_tests), unfolding(crate::specs::Reading::keep))]
    pub fn keep(self, v: u8, buf: &mut [u8]) -> Step
        ensures { record { step = result; bytes = buf.new } ≡ keep self v buf.old }
    {
        let reader = if self.len < buf.len() {
            buf[self.len] = v;
            Reader {
                place: Place::Even,
                len: self.len + 1,
                ..self
            }
        } else {
            Reader {
                place: Place::Even,
                over: true,
                ..self
            }
        };
        Step {
            reader,
            event: Event::More,
        }
    }

    // The reader at another place in the line, with an event.
    pub fn at(self, p: Place, e: Event) -> Step
        ensures { result ≡ record { reader = record { place = p; len = self.len; over = self.over }; event = e } }
    {
        Step {
            reader: Reader { place: p, ..self },
            event: e,
        }
    }

    // Reads one character.
    #[tactic(auto, unfolding(crate::specs::Reading::step))]
    pub fn step(self, b: u8, buf: &mut [u8]) -> Step
        ensures { record { step = result; bytes = buf.new } ≡ step self buf.old b }
    {
        match taken(self.place, b) {
            Turn::Half(h) => self.at(Place::Odd(h), Event::More),
            Turn::Whole(v) => self.keep(v, buf),
            Turn::Line => self.at(Place::Start, Event::Line),
            Turn::Empty => self.at(Place::Start, Event::Empty),
            Turn::Bad => Step {
                reader: self,
                event: Event::Bad,
            },
        }
    }

    // Reads up to the first empty line or bad character, or the end of the piece. It also stops at the end of a line,
    // unless lines are joined and every byte had room.
    pub fn feed(self, joined: bool, from: usize, piece: &[u8], buf: &mut [u8]) -> Fed
        ensures { record { fed = result; bytes = buf.new }
            ≡ feed joined from self buf.old (drop from piece.now) }
    {
        let mut reader = self;
        for i in from..piece.len() {
            let step = reader.step(piece[i], buf);
            reader = step.reader;
            if halts(step.event, joined, reader.over) {
                return Fed {
                    reader,
                    at: i + 1,
                    event: step.event,
                };
            }
        }
        Fed {
            reader,
            at: from.max(piece.len()),
            event: Event::More,
        }
    }
}
