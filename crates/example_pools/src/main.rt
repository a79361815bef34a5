// What a call answers on a transaction or a recovery of another pool: A and B, R 2, C 2, Z 1, have the ids 1 and 2; S, R 1, C 1, Z 1, has the
// id 3. What is printed is compared with the stored values in `stdout`, which were worked out apart from this code.
#![tactic(auto)]

mod transactions; // begun on A and offered to B and S
mod recoveries; // begun on A and offered to B

use examples::memory::{fresh, set};
use std::io;

// Sets seal A to a number that no log has.
fn seal(p: &mut [u8]) {
    set(p, 512, 1);
}

fn on_transactions(
    rt: &impl Print,
    a: &mut [u8; 6144],
    b: &mut [u8],
    small: &[u8],
) -> io::Result<()> {
    let mut staging = [7u8; 2032];
    let t = transactions::stages(rt, a, b, small, &mut staging)?;
    transactions::commits(rt, t, a, b, &staging)?;
    seal(b);
    transactions::begins(rt, a, b, &mut staging)?;
    transactions::after(rt, a, b, &mut staging)
}

// Refusals 9 and 10 stand before 11.
fn on_limits(rt: &impl Print, a: &[u8], b: &[u8], small: &[u8]) -> io::Result<()> {
    let mut staging = [7u8; 2032];
    transactions::before(rt, a, b, small, &mut staging)?;
    transactions::many(rt, b, &mut staging)
}

fn on_recoveries(rt: &impl Print, a: &mut [u8; 6144], b: &mut [u8; 6144]) -> io::Result<()> {
    let mut staging = [7u8; 2032];
    recoveries::cuts(rt, a, &mut staging)?;
    let mut other = recoveries::copy_with_headers(a, b);
    let r = recoveries::offers(rt, a, b, &mut other)?;
    recoveries::replays(rt, r, a, b)
}

// Nothing to do; then one seal set, and no valid log.
fn on_seals(rt: &impl Print, a: &mut [u8], b: &mut [u8]) -> io::Result<()> {
    let _ = pool::format(a, 2, 2, 1, 1);
    recoveries::offer(rt, "finished recovery of A: ", a, b)?;
    seal(a);
    recoveries::offer(rt, "clearing recovery of A: ", a, b)
}

fn main(rt: HostRuntime) -> io::Result<()> {
    let mut a = fresh::<6144>(2, 2, 1);
    let mut b = [0u8; 6144];
    let mut small = [0u8; 5120];
    let _ = pool::format(&mut b, 2, 2, 1, 2);
    let _ = pool::format(&mut small, 1, 1, 1, 3);
    on_transactions(&rt, &mut a, &mut b, &small)?;
    let _ = pool::format(&mut b, 2, 2, 1, 2);
    on_limits(&rt, &a, &b, &small)?;
    on_recoveries(&rt, &mut a, &mut b)?;
    on_seals(&rt, &mut a, &mut b)
}
