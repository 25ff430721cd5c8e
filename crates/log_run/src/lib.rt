// A discovery over a log: line one starts it, and each record is handed to the client.
#![tactic(auto)]

ghost use Rattle.std.specs.Prelude.{◌≡◌};
ghost use Rattle.log_run.specs.Run.{outcome, code, is_ended, is_granted, is_onward, begun, ended, asked, goes};
ghost use Rattle.log_run.specs.Run.{opens, takes, answer};

use client::{Client, Outcome, Says};
use log_listing::Answer;
use walk_table::Table;

// First: line one is not read yet. Running: a Select is out. Ended: the run has ended with a number.
#[derive(Clone, Copy)]
pub enum Stage {
    First,
    Running,
    Ended(u8),
}

// A run: its client, its stage, how many Selects were handed out, and the ids found.
#[derive(Clone, Copy)]
pub struct Replay {
    pub client: Client,
    pub stage: Stage,
    pub selects: u16,
    pub found: Table,
}

// The number of an outcome: 23 for Unaddressed, else 0.
fn outcome(o: Outcome) -> u8
    ensures { result ≡ outcome o }
{
    match o {
        Outcome::Unaddressed => 23,
        _ => 0,
    }
}

// The number that a run ends with, from what a call says.
pub fn code(says: Says) -> u8
    ensures { result ≡ code says }
{
    match says {
        Says::Granted(_) | Says::Closing(_) | Says::Onward => 0,
        Says::Over(o) => outcome(o),
        Says::Refused(r) => r.number(),
    }
}

pub fn is_ended(stage: Stage) -> bool
    ensures { result ≡ is_ended stage }
{
    matches!(stage, Stage::Ended(_))
}

// A run before line one.
pub fn begun() -> Replay
    ensures { result ≡ begun }
{
    let client = Client::new();
    let found = Table::none();
    Replay {
        client,
        stage: Stage::First,
        selects: 0,
        found,
    }
}

// A run that has ended with a number.
pub fn ended(client: Client, selects: u16, found: Table, code: u8) -> Replay
    ensures { result ≡ ended client selects found code }
{
    Replay {
        client,
        stage: Stage::Ended(code),
        selects,
        found,
    }
}

fn is_granted(says: Says) -> bool
    ensures { result ≡ is_granted says }
{
    matches!(says, Says::Granted(_))
}

fn is_onward(says: Says) -> bool
    ensures { result ≡ is_onward says }
{
    matches!(says, Says::Onward)
}

// Asks for the next Select, and counts it if it is granted. If not, the run ends.
fn asked(client: Client, selects: u16) -> Replay
    ensures { result ≡ asked client selects }
{
    let none = [0u8; 1];
    let mut room = [0u8; 64];
    let s = client_request::request(client, &none[..0], &mut room);
    let says = s.says;
    let next = s.client;
    let found = Table::none();
    if is_granted(says) {
        return Replay {
            client: next,
            stage: Stage::Running,
            selects: std::num::wrapping_add_u16(selects, 1),
            found,
        };
    }
    ended(next, selects, found, code(says))
}

// Asks for the next Select if the operation goes on. If not, the run ends.
fn goes(says: Says, client: Client, selects: u16, found: Table) -> Replay
    ensures { result ≡ goes says client selects found }
{
    if is_onward(says) {
        return asked(client, selects);
    }
    ended(client, selects, found, code(says))
}

impl Replay {
    // Ends the run with a number. All else stays.
    pub fn stops(self, code: u8) -> Replay
        ensures { result ≡ ended self.client self.selects self.found code }
    {
        let client = self.client;
        let found = self.found;
        ended(client, self.selects, found, code)
    }

    // Line one, 01 and a prefix, starts the discovery. Any other line one ends the run with 22.
    pub fn opens(self, line: &[u8]) -> Replay
        ensures { result ≡ opens self line.now }
    {
        if line.len() == 0 {
            return self.stops(22);
        }
        if line[0] != 1 {
            return self.stops(22);
        }
        let client = self.client;
        let s = client_start::start_discover(client, &line[1..]);
        let says = s.says;
        let next = s.client;
        goes(says, next, self.selects, Table::none())
    }

    // Hands a record to the client.
    pub fn takes(self, bytes: &[u8]) -> Replay
        ensures { result ≡ takes self bytes.now }
    {
        let client = self.client;
        let none = [0u8; 1];
        let t = client_record::record(client, &none[..0], bytes);
        let says = t.says;
        let next = t.client;
        let found = t.found;
        goes(says, next, self.selects, found)
    }

    // The answer at the end of the input: 22 without line one, 1 without the record of the Select that is out.
    pub fn answer(self) -> Answer
        ensures { result ≡ answer self }
    {
        let s = self.stage;
        let selects = self.selects;
        let found = self.found;
        match s {
            Stage::First => Answer {
                code: 22,
                selects,
                found,
            },
            Stage::Running => Answer {
                code: 1,
                selects,
                found,
            },
            Stage::Ended(code) => Answer {
                code,
                selects,
                found,
            },
        }
    }
}
