// Set-ups saved and recalled (A.1): all ten, a save cut and recovered, and a pool without room. What is printed is compared with the stored
// values in `stdout`, which were worked out apart from this code.
#![tactic(auto)]

mod table; // all ten
mod cuts; // a save cut and recovered

use examples::calls::formatted;
use examples::saves::{keep, recall};
use std::io;
use std::ops::Range;

// Each of these set-ups, under its own number.
fn keep_each(rt: &impl Print, p: &mut [u8], mut numbers: Range<usize>) -> io::Result<()> {
    numbers.try_for_each(|n| keep(rt, p, n, n))
}

fn check(rt: &impl Print, p: &[u8]) -> io::Result<()> {
    examples::report::check(rt, "  check of that pool: ", p)
}

fn on_table(rt: &impl Print, p: &mut [u8]) -> io::Result<()> {
    formatted(rt, p, 4, 2, 1)?;
    table::cases(rt, p)
}

fn on_cuts(rt: &impl Print, p: &mut [u8]) -> io::Result<()> {
    formatted(rt, p, 4, 2, 1)?;
    cuts::cases(rt, p)
}

// There is room for five; one that is there is saved again even so.
fn on_full(rt: &impl Print, p: &mut [u8]) -> io::Result<()> {
    formatted(rt, p, 2, 2, 1)?;
    keep_each(rt, p, 0..6)?;
    recall(rt, p, 5)?;
    keep(rt, p, 2, 99)?;
    recall(rt, p, 2)
}

fn main(rt: HostRuntime) -> io::Result<()> {
    let mut large = [0u8; 7168];
    let mut small = [0u8; 6144];
    on_table(&rt, &mut large)?;
    on_cuts(&rt, &mut large)?;
    on_full(&rt, &mut small)
}
