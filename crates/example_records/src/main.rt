// What a call answers on a forged record or in the wrong phase, in the pool R 2, C 2, Z 1. What is printed is compared with the stored values in
// `stdout`, which were worked out apart from this code.
#![tactic(auto)]

use examples::calls::{forged, say};
use examples::memory::{fresh, set};
use record::Phase;
use std::io;

// A step and an allocate with the record given.
fn offer(
    rt: &impl Print,
    name: &str,
    p: &mut [u8],
    s: &mut [u8],
    count: usize,
    phase: Phase,
) -> io::Result<()> {
    let t = forged(count, phase);
    say(rt, name, t.step(p, s))?;
    say(rt, "  allocate with it: ", t.allocate(p, s, 5, b"a"))?;
    Ok(())
}

// A count above 127, a target outside the data rows, a place past the list of steps.
fn impossible(rt: &impl Print, p: &mut [u8], s: &mut [u8]) -> io::Result<()> {
    offer(rt, "128 entries: ", p, s, 128, Phase::Open)?;
    offer(rt, "a target in the header: ", p, s, 1, Phase::Open)?;
    let first = Phase::Committing(0);
    offer(rt, "past the steps of none: ", p, s, 0, first)
}

// The target 4,608 in the first entry; in the second one too.
fn repeated(rt: &impl Print, p: &mut [u8], s: &mut [u8]) -> io::Result<()> {
    set(s, 1, 18);
    let last = Phase::Committing(15);
    offer(rt, "past the steps of one: ", p, s, 1, last)?;
    set(s, 17, 18);
    offer(rt, "a target twice: ", p, s, 2, Phase::Committing(0))
}

// The entry staged breaks the zone. A seal that is not zero is met by the first step and no later one.
fn phases(rt: &impl Print, p: &mut [u8], s: &mut [u8]) -> io::Result<()> {
    offer(rt, "open: ", p, s, 1, Phase::Open)?;
    offer(rt, "closed: ", p, s, 1, Phase::Closed)?;
    set(p, 512, 1);
    let first = Phase::Committing(0);
    offer(rt, "first step, a seal set: ", p, s, 1, first)?;
    let second = Phase::Committing(1);
    offer(rt, "second step, a seal set: ", p, s, 1, second)
}

fn main(rt: HostRuntime) -> io::Result<()> {
    let mut pool = fresh::<6144>(2, 2, 1);
    let mut staging = [0u8; 2032];
    impossible(&rt, &mut pool, &mut staging)?;
    repeated(&rt, &mut pool, &mut staging)?;
    phases(&rt, &mut pool, &mut staging)
}
