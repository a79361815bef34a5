// Recoveries begun on pool A and offered to B, which has the same shape: refusal 11, and 10 before it and 29 after it.
use examples::calls::store;
use examples::memory::copy;
use examples::report::answer;
use recovery::{Progress, Recovery, Reply};
use std::io;

// Prints what a call answers, and hands the recovery back. `examples::calls::told` does so for a transaction: one function for the two would take
// answer and record apart at each call.
fn told(rt: &impl Print, name: &str, r: Reply) -> io::Result<Recovery> {
    answer(rt, name, r.answer)?;
    Ok(r.recovery)
}

// A commit on A cut after 42 steps: the entries and seal A.
pub fn cuts(rt: &impl Print, a: &mut [u8], s: &mut [u8]) -> io::Result<()> {
    let _ = pool::format(a, 2, 2, 1, 1);
    let names = [
        "allocate tag 5, body 61 on A: ",
        "  cut with seal A alone: ",
    ];
    store(rt, names, a, s, 42)
}

// A copy of A with the two headers of B.
pub fn copy_with_headers(a: &[u8; 6144], b: &[u8; 6144]) -> [u8; 6144] {
    let mut other = *a;
    copy(&mut other, &b[..512]);
    other
}

// With 10 entries the log is needed up to place 21: there B gives 10, and the copy, which has the log, 11.
pub fn offers(rt: &impl Print, a: &[u8], b: &mut [u8], other: &mut [u8]) -> io::Result<Recovery> {
    let r = told(rt, "recovery of A: ", Recovery::start(a))?;
    told(rt, "  first step on B: ", r.step(b))?;
    let name = "  first step on A with the headers of B: ";
    told(rt, name, r.step(other))?;
    let late = Recovery {
        phase: Progress::Recovering(21),
        ..r
    };
    told(rt, "  at place 21 on B: ", late.step(b))?;
    Ok(r)
}

// Part after part on A; at place 22 a step and an advance on B.
pub fn replays(rt: &impl Print, r: Recovery, a: &mut [u8], b: &mut [u8]) -> io::Result<()> {
    let r = told(rt, "  advance on A: ", r.advance(a))?;
    let r = told(rt, "  advance on A: ", r.advance(a))?;
    told(rt, "  step on B: ", r.step(b))?;
    told(rt, "  advance on B: ", r.advance(b))?;
    told(rt, "  advance on A: ", r.advance(a))?;
    Ok(())
}

// The first step of a recovery of A, on B.
pub fn offer(rt: &impl Print, name: &str, a: &[u8], b: &mut [u8]) -> io::Result<()> {
    let r = told(rt, name, Recovery::start(a))?;
    told(rt, "  step on B: ", r.step(b))?;
    Ok(())
}
