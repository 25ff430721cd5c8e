// Replays stored runs of the Rust: reads operations and records, and prints what this client sends and how it ends.
// The input is that of tests/oracle: a line for the operation, a line for each record with 00 before its bytes, and an
// empty line.
#![tactic(auto)]

use client::{Client, Outcome, Progress, Refusal, Says, Started, Told};
use hearing::Heard;
use ids::Id;
use image::Info;
use log_lines::{Event, Place, Reader};
use std::io;
use std::io::Read;
use walk_table::Table;

// The client, whether the next line is an operation, and the length of the image that is flashed.
#[derive(Clone, Copy)]
struct Run {
    client: Client,
    opens: bool,
    size: usize,
}

fn print_number(out: &impl Print, n: u64) -> io::Result<()> {
    print!(out; " {n:08x}")
}

fn print_id(out: &impl Print, id: Id) -> io::Result<()> {
    print!(out; " ")?;
    show::print_front(out, &id.bytes, id.size())
}

fn print_ids(out: &impl Print, found: Table) -> io::Result<()> {
    for i in 0..found.count.min(64) {
        print!(out; "i")?;
        print_id(out, found.row(i).id)?;
        print!(out; "\n")?;
    }
    Ok(())
}

fn print_info(out: &impl Print, i: Info) -> io::Result<()> {
    let fields = [
        i.capacity as u64,
        i.erase_size as u64,
        i.boot_version as u64,
        i.app_version as u64,
        i.mode as u64,
        i.boot_baud as u64,
        i.compat as u64,
        i.max_payload as u64,
    ];
    for n in fields {
        print_number(out, n)?;
    }
    Ok(())
}

fn print_heard(out: &impl Print, h: Heard, id: Id) -> io::Result<()> {
    match h {
        Heard::Nothing => print!(out; " nothing"),
        Heard::One => {
            print!(out; " one")?;
            print_id(out, id)
        }
        Heard::TooLong => print!(out; " too long"),
        Heard::Unaddressed => print!(out; " unaddressed"),
        Heard::Garble => print!(out; " garble"),
    }
}

fn print_outcome(out: &impl Print, o: Outcome, id: Id) -> io::Result<()> {
    match o {
        Outcome::Quiet => print_number(out, 0),
        Outcome::Heard(h) => print_heard(out, h, id),
        Outcome::Attached(_) => print_number(out, 0),
        Outcome::Found => print!(out; " found"),
        Outcome::Knows(info) => print_info(out, info),
        Outcome::Unaddressed => print_number(out, 23),
    }
}

// Ends the line of a run's outcome; then the seed and the attached id.
fn print_end(out: &impl Print, c: Client) -> io::Result<()> {
    print!(out; "\ns")?;
    print_number(out, c.front.seed as u64)?;
    print_id(out, c.attached().id)?;
    print!(out; "\n")
}

fn print_refusal(out: &impl Print, r: Refusal) -> io::Result<()> {
    print_number(out, r.number() as u64)
}

fn print_progress(out: &impl Print, p: Option<Progress>) -> io::Result<()> {
    if let Some(Progress { done, total }) = p {
        print!(out; "% {done:08x} {total:08x}\n")?;
    }
    Ok(())
}

// The place where the unread rest of a record begins, and the progress made.
fn print_read(out: &impl Print, rest: usize, p: Option<Progress>) -> io::Result<()> {
    print!(out; "@ {rest:08x}\n")?;
    print_progress(out, p)
}

fn print_request(out: &impl Print, room: &[u8], n: usize) -> io::Result<()> {
    print!(out; "> ")?;
    show::print_front(out, room, n)?;
    print!(out; "\n")
}

// Asks for the next request and prints it.
fn ask(out: &impl Print, c: Client, image: &[u8]) -> io::Result<Client> {
    let mut room = [0u8; 1036];
    let s = client_request::request(c, image, &mut room);
    if let Says::Granted(n) | Says::Closing(n) = s.says {
        print_request(out, &room, n)?;
    }
    Ok(s.client)
}

// Prints the answer to a record; if the operation goes on, asks for the next request.
fn told(out: &impl Print, t: Told, image: &[u8]) -> io::Result<Client> {
    let c = t.client;
    match t.says {
        Says::Granted(_) | Says::Closing(_) => Ok(c),
        Says::Onward => {
            print_read(out, t.rest, t.progress)?;
            ask(out, c, image)
        }
        Says::Over(o) => {
            print_read(out, t.rest, t.progress)?;
            print_ids(out, t.found)?;
            print!(out; "=")?;
            print_outcome(out, o, t.id)?;
            print_end(out, c)?;
            Ok(c)
        }
        Says::Refused(r) => {
            print!(out; "=")?;
            print_refusal(out, r)?;
            print_end(out, c)?;
            Ok(c)
        }
    }
}

// Starts the operation of a line: its code, then its arguments. Too few arguments start a deselect.
fn start(c: Client, code: u8, args: &[u8]) -> Started {
    match (code, args) {
        (1, [bits, prefix @ ..]) => client_start::start_select(c, prefix, usize::from(*bits)),
        (2, _) => client_start::start_deselect(c),
        (3, _) => client_start::start_attach(c),
        (4, _) => client_start::start_attach_to(c, args),
        (5, _) => client_start::start_discover(c, args),
        (6, _) => client_start::start_info(c),
        (7, _) => client_start::start_erase(c),
        (8, _) => client_start::start_flash(c, args),
        (9, [bootloader, in_boot, ..]) => client_start::start_reset(
            c,
            *bootloader == 1,
            *in_boot == 1,
        ),
        (_, [bootloader, in_boot, baud, ..]) => {
            client_start::start_set_baud(c, *baud, *bootloader == 1, *in_boot == 1)
        }
        _ => client_start::start_deselect(c),
    }
}

// Handles a line: the operation that begins a run, or a record.
fn line(out: &impl Print, run: Run, bytes: &[u8], image: &mut [u8]) -> io::Result<Run> {
    let Some((code, args)) = bytes.split_first() else {
        return Ok(run);
    };
    if run.opens {
        let size = args.len();
        let Some(lent) = image.get_mut(..size) else {
            return Ok(run);
        };
        lent.copy_from_slice(args);
        let client = ask(out, start(run.client, *code, args).client, lent)?;
        return Ok(Run {
            client,
            opens: false,
            size,
        });
    }
    let Some(lent) = image.get(..run.size) else {
        return Ok(run);
    };
    let t = client_record::record(run.client, lent, args);
    let client = told(out, t, lent)?;
    Ok(Run { client, ..run })
}

fn fresh() -> Run {
    Run {
        client: Client::new(),
        opens: true,
        size: 0,
    }
}

fn reader() -> Reader {
    Reader {
        place: Place::Start,
        len: 0,
        over: false,
    }
}

#[derive(Clone, Copy)]
struct State {
    run: Run,
    reader: Reader,
}

// Reads one character of the input.
fn step(
    out: &impl Print,
    state: State,
    b: u8,
    buf: &mut [u8],
    image: &mut [u8],
) -> io::Result<State> {
    let run = state.run;
    let s = state.reader.step(b, buf);
    Ok(match s.event {
        Event::More => State {
            run,
            reader: s.reader,
        },
        Event::Line => {
            let run = match buf.get(..s.reader.len) {
                Some(bytes) => line(out, run, bytes, image)?,
                None => run,
            };
            State {
                run,
                reader: reader(),
            }
        }
        Event::Empty => State {
            run: fresh(),
            reader: reader(),
        },
        Event::Bad => State {
            run,
            reader: reader(),
        },
    })
}

// Reads all input. A failed read counts as its end. A proved loop must end, but the input need not: the reads are
// counted.
fn pump(
    input: &mut impl Read,
    out: &impl Print,
    page: &mut [u8],
    buf: &mut [u8],
    image: &mut [u8],
) -> io::Result<()> {
    let mut state = State {
        run: fresh(),
        reader: reader(),
    };
    for _ in 0..u64::MAX {
        let n = input.read(page).unwrap_or(0);
        if n == 0 {
            break;
        }
        for b in &page[..n] {
            state = step(out, state, *b, buf, image)?;
        }
    }
    Ok(())
}

fn main(rt: HostRuntime) -> io::Result<()> {
    let mut page = [0u8; 65536];
    let mut buf = [0u8; 4096];
    let mut image = [0u8; 4096];
    pump(&mut rt.stdin(), &rt, &mut page, &mut buf, &mut image)
}
