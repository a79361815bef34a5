// Transactions committed in the pool R 2, C 2, Z 1: the bench examples of document 01 on entries, steps and refusal 27, and others. What is
// printed is compared with the stored values in `stdout`, which were worked out apart from this code.
#![tactic(auto)]

use examples::calls::{begin, commit, look, say};
use examples::memory::fresh;
use examples::report::body;
use std::io;
use transaction::{Reply, Transaction};

// One call, its commit, and the object at cell 0 then.
fn committed(rt: &impl Print, name: &str, r: Reply, p: &mut [u8], s: &[u8]) -> io::Result<()> {
    let t = say(rt, name, r)?;
    commit(rt, "  commit: ", t, p, s, 771)?;
    look(rt, p)
}

fn single(rt: &impl Print, p: &mut [u8], s: &mut [u8]) -> io::Result<()> {
    let r = begin(p).allocate(p, s, 5, b"a");
    committed(rt, "allocate tag 5, body 61: ", r, p, s)?;
    let r = begin(p).write(p, s, 0, 0, b"b");
    committed(rt, "write 62 over it: ", r, p, s)?;
    let r = begin(p).free(p, s, 0);
    committed(rt, "free it: ", r, p, s)
}

// Two objects in a fresh pool, the second one with a body of so many bytes: 432 touch 122 words, 433 touch 128.
fn pair(rt: &impl Print, name: &str, p: &mut [u8], s: &mut [u8], second: &[u8]) -> io::Result<()> {
    let _ = pool::format(p, 2, 2, 1, 1);
    let t = say(rt, "body 496: ", begin(p).allocate(p, s, 6, &[90; 496]))?;
    let t = say(rt, name, t.allocate(p, s, 7, second))?;
    commit(rt, "  commit: ", t, p, s, 771)
}

// Later calls see what earlier ones staged: the new object at cell 8 is written over, and the one at 0 freed and its cells taken.
fn together(rt: &impl Print, p: &mut [u8], s: &mut [u8]) -> io::Result<()> {
    let t = say(rt, "body 61 beside it: ", begin(p).allocate(p, s, 5, b"a"))?;
    let t = say(rt, "and 62 over it: ", t.write(p, s, 8, 0, b"b"))?;
    let t = retaken(rt, t, p, s)?;
    commit(rt, "  commit: ", t, p, s, 771)?;
    look(rt, p)?;
    body(rt, "  look at 8: ", p, 8)
}

fn retaken(rt: &impl Print, t: Transaction, p: &[u8], s: &mut [u8]) -> io::Result<Transaction> {
    let t = say(rt, "and the one at 0 freed: ", t.free(p, s, 0))?;
    say(rt, "and its cells taken: ", t.allocate(p, s, 9, b"cde"))
}

fn main(rt: HostRuntime) -> io::Result<()> {
    let mut pool = fresh::<6144>(2, 2, 1);
    let mut staging = [7u8; 2032];
    single(&rt, &mut pool, &mut staging)?;
    pair(&rt, "and body 432: ", &mut pool, &mut staging, &[90; 432])?;
    pair(&rt, "and body 433: ", &mut pool, &mut staging, &[90; 433])?;
    together(&rt, &mut pool, &mut staging)
}
