// What an operation does after the reply to a request with one answer.
#![tactic(auto)]

ghost use Rattle.std.specs.Prelude.{◌≡◌};
ghost use Rattle.client_job.specs.Job.{quietly, refusing, erases, judged, prepared, informed, writes, cleared};
ghost use Rattle.client_job.specs.Job.{erased, wrote, repeated, verified, accepted, declined};

use client::{Job, Outcome, Progress, Purpose, Refusal};
use image::Info;

// What is next: another job, or the end of the operation.
#[derive(Clone, Copy)]
pub enum Then {
    On(Job),
    Over(Outcome),
}

// The progress made, and what is next, or why the operation is refused.
#[derive(Clone, Copy)]
pub struct Next {
    pub progress: Option<Progress>,
    pub then: Result<Then, Refusal>,
}

// No progress was made.
fn quietly(then: Result<Then, Refusal>) -> Next
    ensures { result ≡ quietly then }
{
    Next {
        progress: None,
        then,
    }
}

fn refusing(r: Refusal) -> Next
    ensures { result ≡ refusing r }
{
    quietly(Err(r))
}

// The first Erase, if the capacity rounded up to the erase size fits in 32 bits.
#[tactic(auto, unfolding(crate::specs::Job::erases))]
fn erases(why: Purpose, info: Info) -> Result<Then, Refusal>
    ensures { result ≡ erases why info }
{
    if info.spans_too_far() {
        return Err(Refusal::SpansTooFar);
    }
    Ok(Then::On(Job::Erasing(why, info, 0)))
}

// Checks that the image fits in the device and is compatible, before the first Erase.
#[tactic(auto, unfolding(crate::specs::Job::judged))]
fn judged(n: usize, info: Info, image: &[u8]) -> Result<Then, Refusal>
    ensures { result ≡ judged n info image.now }
{
    if info.too_large(n) {
        return Err(Refusal::FirmwareTooLarge(image::reported(n), info.capacity));
    }
    if info.incompatible(image) {
        return Err(Refusal::Incompatible(info.compat, image::image_compat(image)));
    }
    erases(Purpose::Load(n), info)
}

// What is next after a sound Info, by what the Info was for.
#[tactic(auto, unfolding(crate::specs::Job::prepared))]
fn prepared(why: Purpose, info: Info, image: &[u8]) -> Result<Then, Refusal>
    ensures { result ≡ prepared why info image.now }
{
    match why {
        Purpose::Tell => Ok(Then::Over(Outcome::Knows(info))),
        Purpose::Clear => erases(why, info),
        Purpose::Load(n) => judged(n, info, image),
    }
}

// The reply to an Info.
#[tactic(auto, unfolding(crate::specs::Job::informed))]
fn informed(why: Purpose, payload: &[u8], image: &[u8]) -> Result<Then, Refusal>
    ensures { result ≡ informed why payload.now image.now }
{
    let info = image::device_info(payload)?;
    prepared(why, info, image)
}

// The first Write. An empty image has none, and Verify is next.
#[tactic(auto, unfolding(crate::specs::Job::writes))]
fn writes(n: usize, info: Info) -> Then
    ensures { result ≡ writes n info }
{
    if n == 0 {
        return Then::On(Job::Verifying(n, info));
    }
    Then::On(Job::Writing(n, info, 0, 0))
}

// After the last Erase an erase has ended, and a flash goes on with its Writes.
#[tactic(auto, unfolding(crate::specs::Job::cleared))]
fn cleared(why: Purpose, info: Info) -> Then
    ensures { result ≡ cleared why info }
{
    match why {
        Purpose::Tell => Then::Over(Outcome::Knows(info)),
        Purpose::Clear => Then::Over(Outcome::Knows(info)),
        Purpose::Load(n) => writes(n, info),
    }
}

// The reply to an Erase: the next Erase, or what follows the last one.
#[tactic(auto, unfolding(crate::specs::Job::erased))]
fn erased(why: Purpose, info: Info, address: u32) -> Next
    ensures { result ≡ erased why info address }
{
    let then = match info.erase_after(address) {
        Some(next) => Then::On(Job::Erasing(why, info, next)),
        None => cleared(why, info),
    };
    Next {
        progress: Some(Progress {
            done: u64::from(address) + u64::from(info.erase_size),
            total: u64::from(info.capacity),
        }),
        then: Ok(then),
    }
}

// The reply to a Write: the next Write, or Verify after the last one.
#[tactic(auto, unfolding(crate::specs::Job::wrote, image::specs::Pieces::is_last, paper::specs::Answers::padding))]
fn wrote(info: Info, offset: u64, image: &[u8]) -> Next
    ensures { result ≡ wrote info offset image.now }
{
    let n = image.len();
    let job = if image::writes::last(info, n, offset) {
        Job::Verifying(n, info)
    } else {
        Job::Writing(n, info, offset + info.chunk() as u64, 0)
    };
    Next {
        progress: Some(Progress {
            done: image::writes::chunks_to(info, offset),
            total: image::writes::chunks(info, n),
        }),
        then: Ok(Then::On(job)),
    }
}

// How many times a Write answered with status 3 is repeated.
const RETRIES: u8 = 16;

#[tactic(auto, unfolding(crate::specs::Job::repeated))]
fn repeated(n: usize, info: Info, offset: u64, retries: u8) -> Result<Then, Refusal>
    ensures { result ≡ repeated n info offset retries }
{
    if RETRIES <= retries {
        return Err(Refusal::RetriesSpent);
    }
    Ok(Then::On(Job::Writing(n, info, offset, retries + 1)))
}

// The reply to a Verify: the device's check must be that of the image lent with this call.
#[tactic(auto, unfolding(crate::specs::Job::verified, paper::specs::Frame::check))]
fn verified(info: Info, payload: &[u8], image: &[u8]) -> Result<Then, Refusal>
    ensures { result ≡ verified info payload.now image.now }
{
    if payload.len() < 2 {
        return Err(Refusal::ShortVerify);
    }
    let expected = crc::crc16(crc::START, image);
    let actual = wire::get(payload, 0);
    if expected != actual {
        return Err(Refusal::CrcMismatch(expected, actual));
    }
    Ok(Then::Over(Outcome::Knows(info)))
}

// A reply of status Ok, with its payload.
#[tactic(auto, unfolding(crate::specs::Job::accepted))]
pub fn accepted(job: Job, payload: &[u8], image: &[u8]) -> Next
    ensures { result ≡ accepted job payload.now image.now }
{
    match job {
        Job::Informing(why) => quietly(informed(why, payload, image)),
        Job::Erasing(why, info, address) => erased(why, info, address),
        Job::Writing(_, info, offset, _) => wrote(info, offset, image),
        Job::Verifying(_, info) => quietly(verified(info, payload, image)),
        Job::Resetting(_) => quietly(Ok(Then::Over(Outcome::Quiet))),
    }
}

// A reply of another status, or with a bad check, which counts as status 3.
#[tactic(auto, unfolding(crate::specs::Job::declined))]
pub fn declined(job: Job, status: u8) -> Next
    ensures { result ≡ declined job status }
{
    match job {
        Job::Writing(n, info, offset, retries) if status == wire::CRC_MISMATCH => {
            quietly(repeated(n, info, offset, retries))
        }
        _ => refusing(Refusal::Device(status)),
    }
}
