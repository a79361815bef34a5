// One log overwritten after a cut (A.10): the commit of the tag 5 object, which has 10 entries and 69 steps, is cut, and every store so far is
// kept; then recovery goes on to its end. The object must be there if the other log's seal was stored: log A's by step 42, log B's by step 43.
use examples::calls::{begin, recover};
use examples::memory::{fill, turn};
use examples::report::{body, check};
use recovery::Log;
use std::io;
use std::ops::Range;
use transaction::Reply;

// The log's seal and its places for entries.
fn range(log: Log) -> Range<usize> {
    match log {
        Log::A => 512..2560,
        Log::B => 2560..4608,
    }
}

// The start of that commit.
fn start(p: &[u8], s: &mut [u8]) -> Reply {
    let r = begin(p).allocate(p, s, 5, b"a");
    r.transaction.commit(p, s)
}

// That commit on a fresh pool, up to its cut after `n` steps.
fn cut(rt: &impl Print, p: &mut [u8], n: usize) -> io::Result<()> {
    let mut staging = [7u8; 2032];
    let _ = pool::format(p, 2, 2, 1, 1);
    let r = start(p, &mut staging);
    saving::steps(r, p, &staging, n);
    print!(rt; "cut after {n}")
}

// Recovery to its end: its steps, the object, and the pool's check.
fn ends(rt: &impl Print, name: &str, p: &mut [u8]) -> io::Result<()> {
    recover(rt, name, p)?;
    body(rt, "  look: ", p, 0)?;
    check(rt, "  check of that pool: ", p)
}

// The cut after `n` steps, each byte of the log then `b`.
fn overwritten(rt: &impl Print, p: &mut [u8], n: usize, log: Log, b: u8) -> io::Result<()> {
    cut(rt, p, n)?;
    fill(p, range(log), b);
    print!(rt; " steps, log {log:?} all {b:02x}")?;
    ends(rt, ": ", p)
}

// The lowest bit of the first entry's word turned.
fn turned(rt: &impl Print, p: &mut [u8]) -> io::Result<()> {
    cut(rt, p, 42)?;
    turn(p, 536);
    ends(rt, " steps, a bit of an entry of log A turned: ", p)
}

// Before both seals are stored: by step 42 seal A alone is.
fn early(rt: &impl Print, p: &mut [u8]) -> io::Result<()> {
    overwritten(rt, p, 41, Log::A, 255)?;
    overwritten(rt, p, 42, Log::A, 255)?;
    overwritten(rt, p, 42, Log::A, 0)?;
    turned(rt, p)?;
    overwritten(rt, p, 42, Log::B, 255)
}

// Both seals stored; in the middle of the data; A cleared; both cleared.
fn late(rt: &impl Print, p: &mut [u8]) -> io::Result<()> {
    for n in [43, 50, 67] {
        overwritten(rt, p, n, Log::A, 255)?;
        overwritten(rt, p, n, Log::B, 255)?;
    }
    overwritten(rt, p, 67, Log::B, 0)?;
    overwritten(rt, p, 69, Log::A, 255)?;
    overwritten(rt, p, 69, Log::B, 255)
}

pub fn cases(rt: &impl Print, p: &mut [u8]) -> io::Result<()> {
    early(rt, p)?;
    late(rt, p)
}
