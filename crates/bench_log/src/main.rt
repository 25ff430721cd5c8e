// The bench log program: reads a log from standard input and writes its answer to standard output.
#![tactic(auto)]

ghost use Rattle.log_feed.specs.FeedMachine.{Logged, begun};
ghost use Rattle.log_feed.specs.Pieces.{Reached};
ghost use Rattle.bench_log.specs.Reports.{Reports};

use log_feed::events::Log;
use std::io;
use std::io::Read;

// Reads all input, and feeds each piece to the log. A failed read counts as the end of the input. A proved loop must
// end, but the input need not. So the reads are counted, up to 2^64 - 1; each brings at least one byte.
fn pump(input: &mut impl Read, page: &mut [u8], buf: &mut [u8]) -> Log
    ensures { Reached (record { log = begun; bytes = buf.old })
        (record { log = result; bytes = buf.new }) }
{
    let mut log = log_feed::begun();
    for _ in 0..u64::MAX {
        let n = input.read(page).unwrap_or(0);
        if n == 0 {
            break;
        }
        log = log_feed::feed(log, &page[..n], buf);
    }
    log
}

// Reads all input, and writes its output to the front of `out`.
fn report(
    input: &mut impl Read,
    page: &mut [u8],
    buf: &mut [u8; 4096],
    out: &mut [u8; 2121],
) -> usize
    ensures { Reports out.old result out.new }
{
    let log = pump(input, page, buf);
    let answer = log_feed::finish(log, buf);
    log_listing::show(answer, out)
}

fn main(rt: HostRuntime) -> io::Result<()> {
    let mut page = [0u8; 65536];
    let mut buf = [0u8; 4096];
    let mut out = [0u8; 2121];
    let n = report(&mut rt.stdin(), &mut page, &mut buf, &mut out);
    rt.write_all(&out[..n])
}
