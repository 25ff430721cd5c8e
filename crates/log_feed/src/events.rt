// Handling the events of a log's reader: the end of line one, of a line of a record, of a record, or a bad character.
ghost use Rattle.std.specs.Prelude.{◌≡◌};
ghost use Rattle.log_feed.specs.Events.{idle, log_of, lined, emptied, met};

use log_lines::{Event, Place, Reader};
use log_run::{Replay, Stage};

// The state of a log: its reader and its run.
#[derive(Clone, Copy)]
pub struct Log {
    pub reader: Reader,
    pub replay: Replay,
}

// A reader before the first byte of a record.
pub fn idle() -> Reader
    ensures { result ≡ idle }
{
    Reader {
        place: Place::Start,
        len: 0,
        over: false,
    }
}

pub fn log_of(reader: Reader, replay: Replay) -> Log
    ensures { result ≡ log_of reader replay }
{
    Log { reader, replay }
}

// The end of line one, or of a line of a record.
fn lined(v: Replay, r: Reader, buf: &[u8]) -> Log
    ensures { result ≡ lined v r buf.now }
{
    let s = v.stage;
    let n = r.len;
    match s {
        Stage::First => log_of(idle(), v.opens(log_lines::front(buf, n))),
        Stage::Running => {
            if r.over {
                return log_of(idle(), v.stops(22));
            }
            log_of(r, v)
        }
        Stage::Ended(_) => log_of(r, v),
    }
}

// An empty line: it is line one, or it ends a record.
fn emptied(v: Replay, r: Reader, buf: &[u8]) -> Log
    ensures { result ≡ emptied v r buf.now }
{
    let s = v.stage;
    let n = r.len;
    match s {
        Stage::First => lined(v, r, buf),
        Stage::Running => {
            if r.over {
                return log_of(idle(), v.stops(22));
            }
            log_of(idle(), v.takes(log_lines::front(buf, n)))
        }
        Stage::Ended(_) => log_of(r, v),
    }
}

// Handles an event. A bad character ends the run with 22.
pub fn met(v: Replay, r: Reader, e: Event, buf: &[u8]) -> Log
    ensures { result ≡ met v r e buf.now }
{
    match e {
        Event::More => log_of(r, v),
        Event::Line => lined(v, r, buf),
        Event::Empty => emptied(v, r, buf),
        Event::Bad => log_of(idle(), v.stops(22)),
    }
}
