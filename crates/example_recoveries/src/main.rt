// A commit cut and recovered in the pool R 2, C 2, Z 1: the bench example of document 01 on a cut with only seal A stored, what a recovery
// refuses, and one log overwritten after the cut. What is printed is compared with the stored values in `stdout`, which were worked out apart
// from this code.
#![tactic(auto)]

mod scribbled; // one log overwritten after the cut

use examples::calls::{look, recover, store};
use examples::memory::{fresh, set};
use examples::report::{answer, check};
use recovery::Recovery;
use std::io;

// Cut after 42 steps: the entries and seal A.
fn cuts(rt: &impl Print, p: &mut [u8], s: &mut [u8]) -> io::Result<()> {
    let names = ["allocate tag 5, body 61: ", "  cut with seal A alone: "];
    store(rt, names, p, s, 42)?;
    look(rt, p)
}

fn recovers(rt: &impl Print, p: &mut [u8]) -> io::Result<()> {
    recover(rt, "  recovery: ", p)?;
    check(rt, "  check of that pool: ", p)?;
    look(rt, p)?;
    recover(rt, "  recovery of that pool: ", p)
}

// Neither log is valid: both seals set, then one.
fn seals(rt: &impl Print, p: &mut [u8]) -> io::Result<()> {
    set(p, 512, 1);
    set(p, 2560, 1);
    recover(rt, "recovery with both seals set: ", p)?;
    set(p, 2560, 0);
    recover(rt, "recovery with one set: ", p)
}

fn finished(rt: &impl Print, p: &mut [u8]) -> io::Result<()> {
    let recovery = Recovery::start(p).recovery;
    let r = recovery.step(p);
    answer(rt, "step of a finished one: ", r.answer)
}

fn headers(rt: &impl Print, p: &mut [u8]) -> io::Result<()> {
    set(p, 0, 0);
    set(p, 256, 0);
    recover(rt, "recovery without a header: ", p)
}

fn main(rt: HostRuntime) -> io::Result<()> {
    let mut pool = fresh::<6144>(2, 2, 1);
    let mut staging = [7u8; 2032];
    cuts(&rt, &mut pool, &mut staging)?;
    recovers(&rt, &mut pool)?;
    seals(&rt, &mut pool)?;
    finished(&rt, &mut pool)?;
    headers(&rt, &mut pool)?;
    scribbled::cases(&rt, &mut pool)
}
