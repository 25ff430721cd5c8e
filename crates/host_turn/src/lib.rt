// A turn as numbers and flags of fixed widths, and back.
// Any numbers give some turn, and the numbers of a turn give that turn back.
#![tactic(auto)]

ghost use Rattle.std.specs.Prelude.{◌≡◌};
ghost use Rattle.host_turn.specs.Turns.{no_reset, jobless, selecting, demanding, leaving, tag_of, size_of};
ghost use Rattle.host_turn.specs.Turns.{walking_of, search_flat, job_flat, phase_flat, flat_of, purpose_of, step_of};
ghost use Rattle.host_turn.specs.Turns.{search_of, job_of, phase_of, turn_of};

use client::{Job, Phase, Purpose, Reset, Search, Turn};
use image::Info;

// The fields of any turn. A field that a turn does not have is zero. A Select has `search` and `given`, a Select of a
// walk also `step` and `other`. A request with one answer has the fields from `job` to `retries`. A Reset has `reset`.
// Kept as numbers and flags, with the functions below that give and read them: `saved_flat` and `loaded_flat` give each
// its place in a host's bytes, which may hold any number.
#[derive(Clone, Copy)]
pub struct Flat {
    pub turn: u8,
    pub kind: u8,
    pub search: u8,
    pub given: bool,
    pub step: u8,
    pub other: bool,
    pub job: u8,
    pub purpose: u8,
    pub size: usize,
    pub info: Info,
    pub address: u32,
    pub offset: u64,
    pub retries: u8,
    pub reset: Reset,
}

pub fn no_reset() -> Reset
    ensures { result ≡ no_reset }
{
    Reset {
        bootloader: false,
        given: false,
        baud: 0,
    }
}

// The numbers of a phase without a job: the fields of a job are zero.
fn jobless(turn: u8, kind: u8, search: u8, given: bool, step: u8, other: bool, reset: Reset) -> Flat
    ensures { result ≡ jobless turn kind search given step other reset }
{
    let info = image::info_bytes::none();
    Flat {
        turn,
        kind,
        search,
        given,
        step,
        other,
        job: 0,
        purpose: 0,
        size: 0,
        info,
        address: 0,
        offset: 0,
        retries: 0,
        reset,
    }
}

// The numbers of a Select.
fn selecting(turn: u8, search: u8, given: bool, step: u8, other: bool) -> Flat
    ensures { result ≡ selecting turn search given step other }
{
    let reset = no_reset();
    jobless(turn, 0, search, given, step, other, reset)
}

// The numbers of a request with one answer.
fn demanding(
    turn: u8,
    job: u8,
    purpose: u8,
    size: usize,
    info: Info,
    address: u32,
    offset: u64,
    retries: u8,
    reset: Reset,
) -> Flat
    ensures { result ≡ demanding turn job purpose size info address offset retries reset }
{
    Flat {
        turn,
        kind: 1,
        search: 0,
        given: false,
        step: 0,
        other: false,
        job,
        purpose,
        size,
        info,
        address,
        offset,
        retries,
        reset,
    }
}

// The numbers of a Reset whose reply is not awaited.
fn leaving(turn: u8, reset: Reset) -> Flat
    ensures { result ≡ leaving turn reset }
{
    jobless(turn, 2, 0, false, 0, false, reset)
}

fn tag_of(why: Purpose) -> u8
    ensures { result ≡ tag_of why }
{
    match why {
        Purpose::Tell => 0,
        Purpose::Clear => 1,
        Purpose::Load(_) => 2,
    }
}

// The image length of a purpose; 0 if it has none.
fn size_of(why: Purpose) -> usize
    ensures { result ≡ size_of why }
{
    match why {
        Purpose::Tell => 0,
        Purpose::Clear => 0,
        Purpose::Load(n) => n,
    }
}

fn walking_of(turn: u8, step: walk::Phase) -> Flat
    ensures { result ≡ walking_of turn step }
{
    match step {
        walk::Phase::Asked => selecting(turn, 4, false, 0, false),
        walk::Phase::Mine => selecting(turn, 4, false, 1, false),
        walk::Phase::Other(other) => selecting(turn, 4, false, 2, other),
        walk::Phase::Leaving => selecting(turn, 4, false, 3, false),
    }
}

fn search_flat(turn: u8, search: Search) -> Flat
    ensures { result ≡ search_flat turn search }
{
    match search {
        Search::Probing => selecting(turn, 0, false, 0, false),
        Search::Parting => selecting(turn, 1, false, 0, false),
        Search::Seeking(given) => selecting(turn, 2, given, 0, false),
        Search::Backing(given) => selecting(turn, 3, given, 0, false),
        Search::Walking(step) => walking_of(turn, step),
    }
}

fn job_flat(turn: u8, job: Job) -> Flat
    ensures { result ≡ job_flat turn job }
{
    match job {
        Job::Informing(why) => demanding(
            turn,
            0,
            tag_of(why),
            size_of(why),
            image::info_bytes::none(),
            0,
            0,
            0,
            no_reset(),
        ),
        Job::Erasing(why, info, address) => demanding(
            turn,
            1,
            tag_of(why),
            size_of(why),
            info,
            address,
            0,
            0,
            no_reset(),
        ),
        Job::Writing(n, info, offset, retries) => demanding(
            turn,
            2,
            0,
            n,
            info,
            0,
            offset,
            retries,
            no_reset(),
        ),
        Job::Verifying(n, info) => demanding(turn, 3, 0, n, info, 0, 0, 0, no_reset()),
        Job::Resetting(reset) => demanding(
            turn,
            4,
            0,
            0,
            image::info_bytes::none(),
            0,
            0,
            0,
            reset,
        ),
    }
}

fn phase_flat(turn: u8, phase: Phase) -> Flat
    ensures { result ≡ phase_flat turn phase }
{
    match phase {
        Phase::Select(search) => search_flat(turn, search),
        Phase::Demand(job) => job_flat(turn, job),
        Phase::Leave(reset) => leaving(turn, reset),
    }
}

// The numbers of a turn.
pub fn flat_of(turn: Turn) -> Flat
    ensures { result ≡ flat_of turn }
{
    match turn {
        Turn::Idle => selecting(0, 0, false, 0, false),
        Turn::Ready(phase) => phase_flat(1, phase),
        Turn::Waiting(phase) => phase_flat(2, phase),
    }
}

fn purpose_of(purpose: u8, size: usize) -> Purpose
    ensures { result ≡ purpose_of purpose size }
{
    match purpose {
        1 => Purpose::Clear,
        2 => Purpose::Load(size),
        _ => Purpose::Tell,
    }
}

fn step_of(step: u8, other: bool) -> walk::Phase
    ensures { result ≡ step_of step other }
{
    match step {
        1 => walk::Phase::Mine,
        2 => walk::Phase::Other(other),
        3 => walk::Phase::Leaving,
        _ => walk::Phase::Asked,
    }
}

fn search_of(f: Flat) -> Search
    ensures { result ≡ search_of f }
{
    let search = f.search;
    match search {
        1 => Search::Parting,
        2 => Search::Seeking(f.given),
        3 => Search::Backing(f.given),
        4 => Search::Walking(step_of(f.step, f.other)),
        _ => Search::Probing,
    }
}

fn job_of(f: Flat) -> Job
    ensures { result ≡ job_of f }
{
    let job = f.job;
    let info = f.info;
    let reset = f.reset;
    match job {
        1 => Job::Erasing(purpose_of(f.purpose, f.size), info, f.address),
        2 => Job::Writing(f.size, info, f.offset, f.retries),
        3 => Job::Verifying(f.size, info),
        4 => Job::Resetting(reset),
        _ => Job::Informing(purpose_of(f.purpose, f.size)),
    }
}

fn phase_of(f: Flat) -> Phase
    ensures { result ≡ phase_of f }
{
    let kind = f.kind;
    let reset = f.reset;
    match kind {
        1 => Phase::Demand(job_of(f)),
        2 => Phase::Leave(reset),
        _ => Phase::Select(search_of(f)),
    }
}

// The turn of some numbers. A number that names no case is read as 0.
pub fn turn_of(f: Flat) -> Turn
    ensures { result ≡ turn_of f }
{
    let turn = f.turn;
    match turn {
        1 => Turn::Ready(phase_of(f)),
        2 => Turn::Waiting(phase_of(f)),
        _ => Turn::Idle,
    }
}
