// Handling the record heard after a request with one answer, decided on the client's front. The walk stays, or ends.
ghost use Rattle.std.specs.Prelude.{◌≡◌};
ghost use Rattle.walk.specs.declared.Walk.{Walk};
ghost use Rattle.client.specs.Verdicts.{client_of, told_of};
ghost use Rattle.client_record.specs.Answer.{goes, tells};

use client::{Front, Job, Phase, Refusal, Says, Verdict};
use client_job::{Next, Then};
use hearing::NoReply;

// The verdict for what is next. The unread rest begins at the place given. Kept inline: as a call of its own it leaves
// its verdict in memory, to be copied three times, and a record takes up to a quarter longer.
#[inline(always)]
#[tactic(auto, unfolding(crate::specs::Answer::goes))]
fn goes(f: Front, next: Next, at: usize) -> Verdict
    ensures { (w : Walk) → told_of result w ≡ goes (client_of f w) next at }
{
    match next.then {
        Ok(Then::On(job)) => f.stays(Phase::Demand(job), at).making(next.progress),
        Ok(Then::Over(o)) => f.stops(Says::Over(o), at).making(next.progress),
        Err(r) => f.stops(Says::Refused(r), at),
    }
}

// The first frame that is not an echo is the reply. Without one, or after a frame that is short or too long, the
// operation ends with 1.
pub fn tells(f: Front, job: Job, image: &[u8], bytes: &[u8]) -> Verdict
    ensures { (w : Walk) → told_of result w ≡ tells (client_of f w) job image.now bytes.now }
{
    match hearing::answer(bytes) {
        Ok(reply) => {
            let from = reply.payload;
            let to = from + reply.len;
            let next = client_job::accepted(job, &bytes[from..to], image);
            goes(f, next, reply.end)
        }
        Err(NoReply::Device(status, end)) => goes(f, client_job::declined(job, status), end),
        Err(NoReply::Lost) => f.stops(Says::Refused(Refusal::Io), bytes.len()),
    }
}
