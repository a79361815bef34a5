// Power cuts shown: an object is saved in a fresh pool of the least shape, and the power is cut after each number of steps of the commit, with
// several subsets of the stores since the last barrier: none, all, every other one, each one alone, all but each one. After each cut the pool
// is recovered, the object looked for and the pool scrubbed. What is printed is compared with `stdout`, which was worked out apart from this
// code.
#![tactic(auto)]

mod memory; // stores kept or lost by a cut
mod table; // counts in rows

use crate::memory::{Memory, Subset, is_barrier};
use crate::table::{Table, Tally};
use answers::Answer;
use refusals::Refusal;
use scrub::Counts;
use std::io;
use transaction::Transaction;

// The body of the object that is saved: a whole cell with its head.
const BODY: [u8; 48] = *b"The quick brown fox jumps over the lazy dog. 123";

// Whether scrub finds `n` objects and nothing wrong.
fn is_clean(pool: &[u8], n: usize) -> bool {
    match pool::scrub(pool) {
        Ok(
            Counts {
                objects,
                damaged: 0,
                broken: 0,
                columns: 0,
            },
        ) => objects == n,
        _ => false,
    }
}

// Recovers the pool that a cut left, and tells what is found: no object at cell 0, or the one that was saved, whole.
fn judge(cut: &mut [u8]) -> Tally {
    let done = matches!(saving::recover(cut).answer, Answer::Done(_));
    let old = matches!(pool::look_for(cut, 0), Err(Refusal::NoObject));
    let new = pool::look(cut, 0) == BODY.as_slice();
    let clean = is_clean(cut, usize::from(new));
    Tally {
        cuts: 1,
        old: usize::from(old),
        new: usize::from(new),
        done: usize::from(done),
        clean: usize::from(clean),
    }
}

// The cuts after the steps made so far.
fn cuts(memory: &Memory) -> Tally {
    let n = memory.stores;
    let few = [Subset::Nothing, Subset::All, Subset::Even, Subset::Odd];
    let alone = (0..n).map(|i| Subset::Alone(i));
    let without = (0..n).map(|i| Subset::Without(i));
    few.into_iter()
        .chain(alone)
        .chain(without)
        .fold(Tally::default(), |tally, subset| {
            tally + judge(&mut memory.cut(subset))
        })
}

// Stages the object and starts its commit.
fn begin(pool: &[u8], staging: &mut [u8]) -> Transaction {
    let begun = Transaction::begin(pool).transaction;
    let allocated = begun.allocate(pool, staging, 5, &BODY).transaction;
    allocated.commit(pool, staging).transaction
}

fn main(rt: HostRuntime) -> io::Result<()> {
    let mut staging = [0u8; 2032];
    let mut memory = Memory::fresh();
    let mut t = begin(&memory.pool, &mut staging);
    let mut table = Table::new(&rt)?;
    // The commit of 10 entries has 69 steps; by number: each is made from what the last one handed back.
    for _ in 0..69 {
        let now = cuts(&memory);
        let reply = memory.step(t, &staging);
        t = reply.transaction;
        table.enter(&rt, now, is_barrier(reply.answer))?;
    }
    table.end(&rt, cuts(&memory))
}
