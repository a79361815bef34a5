// Headers mended and pages repaired, and what mending and repair refuse: the bench examples of document 01 on loss masks, and others. What is
// printed is compared with the stored values in `stdout`, which were worked out apart from this code.
#![tactic(auto)]

mod repairs; // pages repaired, and how many bytes that altered

use examples::memory::set;
use examples::report::{check, outcome};
use std::io;

// A pool of 6,144 bytes, scribbled over in its header; then in the copy, and in both.
fn mends(rt: &impl Print, p: &mut [u8]) -> io::Result<()> {
    let _ = pool::format(p, 2, 2, 1, 1);
    outcome(rt, "mend a fresh pool: ", pool::mend(p))?;
    set(p, 4, 3);
    outcome(rt, "mend the header: ", pool::mend(p))?;
    check(rt, "check of that pool: ", p)
}

fn copies(rt: &impl Print, p: &mut [u8]) -> io::Result<()> {
    set(p, 300, 1);
    outcome(rt, "mend the copy: ", pool::mend(p))?;
    check(rt, "check of that pool: ", p)?;
    set(p, 0, 0);
    set(p, 256, 0);
    outcome(rt, "mend with neither valid: ", pool::mend(p))
}

// Another pool's header over the copy: two valid, different headers; other lengths.
fn refused_mends(rt: &impl Print, p: &mut [u8; 6144], other: &mut [u8; 6144]) -> io::Result<()> {
    let _ = pool::format(p, 2, 2, 1, 1);
    let _ = pool::format(other, 2, 2, 1, 2);
    p[256..512].copy_from_slice(&other[..256]);
    outcome(rt, "mend with different ones: ", pool::mend(p))?;
    let mended = pool::mend(&mut other[..6143]);
    outcome(rt, "mend 6143 bytes: ", mended)?;
    let mended = pool::mend(&mut other[..511]);
    outcome(rt, "mend 511 bytes: ", mended)
}

fn main(rt: HostRuntime) -> io::Result<()> {
    let mut pool = [0u8; 6144];
    let mut other = [0u8; 6144];
    mends(&rt, &mut pool)?;
    copies(&rt, &mut pool)?;
    refused_mends(&rt, &mut pool, &mut other)?;
    repairs::cases(&rt, &mut pool)
}
