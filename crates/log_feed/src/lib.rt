// The bench log: it reads the input in pieces, and returns the answer of the discovery.
#![tactic(auto)]

pub mod events;

ghost use Rattle.std.specs.Prelude.{◌≡◌, drop};
ghost use Rattle.log_run.specs.Run.{answer};
ghost use Rattle.log_feed.specs.FeedMachine.{joins, inside, more, begun, Logged, stretch, piece, last_line};

use crate::events::Log;
use log_lines::{Event, Place};
use log_listing::Answer;
use log_run::Stage;

// The log after a part of a piece, how far the piece was read, and whether it is done.
#[derive(Clone, Copy)]
struct Span {
    pub log: Log,
    pub at: usize,
    pub done: bool,
}

// Whether lines are joined to a record: only while a Select is out.
fn joins(stage: Stage) -> bool
    ensures { result ≡ joins stage }
{
    matches!(stage, Stage::Running)
}

// Whether a place is inside a line.
fn inside(place: Place) -> bool
    ensures { result ≡ inside place }
{
    !matches!(place, Place::Start)
}

// Whether there was no event: the piece was read to its end.
fn more(e: Event) -> bool
    ensures { result ≡ more e }
{
    matches!(e, Event::More)
}

// A log before its first byte.
pub fn begun() -> Log
    ensures { result ≡ begun }
{
    let reader = crate::events::idle();
    let replay = log_run::begun();
    crate::events::log_of(reader, replay)
}

// Reads a piece from a place on, up to the next event or to its end. After the end of the run it reads nothing.
fn stretch(log: Log, from: usize, bytes: &[u8], buf: &mut [u8]) -> Span
    ensures { record { span = result; bytes = buf.new }
        ≡ stretch log buf.old from (drop from bytes.now) }
{
    let v = log.replay;
    let s = v.stage;
    if log_run::is_ended(s) {
        return Span {
            log,
            at: from,
            done: true,
        };
    }
    let r = log.reader;
    let f = r.feed(joins(s), from, bytes, buf);
    let e = f.event;
    Span {
        log: crate::events::met(v, f.reader, e, buf),
        at: f.at,
        done: more(e),
    }
}

// Reads a piece of the input, of any length. Between pieces the buffer holds what was read of line one or of a record.
pub fn feed(log: Log, bytes: &[u8], buf: &mut [u8]) -> Log
    ensures { record { log = result; bytes = buf.new }
        ≡ piece (record { log = log; bytes = buf.old }) bytes.now }
{
    let mut w = log;
    let mut i = 0;
    loop {
        let s = stretch(w, i, bytes, buf);
        w = s.log;
        i = s.at;
        if s.done {
            break;
        }
    }
    w
}

// Adds the LF that may be missing from a last line.
fn last_line(log: Log, buf: &mut [u8]) -> Log
    ensures { record { log = result; bytes = buf.new }
        ≡ last_line (record { log = log; bytes = buf.old }) }
{
    let r = log.reader;
    let p = r.place;
    if inside(p) {
        return feed(log, b"\n", buf);
    }
    log
}

// The answer at the end of the input.
pub fn finish(log: Log, buf: &mut [u8]) -> Answer
    ensures value { result ≡ answer (last_line (record { log = log; bytes = buf.old })).log.replay }
    ensures buf_after { buf.new ≡ (last_line (record { log = log; bytes = buf.old })).bytes }
{
    let w = last_line(log, buf);
    let v = w.replay;
    v.answer()
}
