// Calls for the example programs: each prints its answer, and on a transaction the entries then. Those that print have no contract.
ghost use Rattle.std.specs.Prelude.{◌≡◌};

use crate::report::{answer, body, check, head, outcome};
use record::{Phase, Record};
use std::io;
use transaction::{Reply, Transaction};

// A fresh pool of this shape, with the id 1, made in all of `p`.
pub fn formatted(
    rt: &impl Print,
    p: &mut [u8],
    rows: usize,
    cols: usize,
    zones: usize,
) -> io::Result<()> {
    print!(rt; "format R {rows}, C {cols}, Z {zones}")?;
    outcome(rt, ": ", pool::format(p, rows, cols, zones, 1))
}

// Prints what a call answers, and hands the transaction back.
pub fn told(rt: &impl Print, name: &str, r: Reply) -> io::Result<Transaction> {
    answer(rt, name, r.answer)?;
    Ok(r.transaction)
}

// The same, and the entries then.
pub fn say(rt: &impl Print, name: &str, r: Reply) -> io::Result<Transaction> {
    let t = told(rt, name, r)?;
    let entries = t.txn.count;
    println!(rt; "  entries: {entries}")?;
    Ok(t)
}

// A transaction begun on the pool; where that is refused, what begin handed back.
pub fn begin(p: &[u8]) -> Transaction {
    Transaction::begin(p).transaction
}

// A transaction that no call handed back, of the pool with the id 1.
pub fn forged(count: usize, phase: Phase) -> Transaction
    ensures { result ≡ record { txn = record { id = 1; count = count; phase = phase } } }
{
    let id = 1;
    let txn = Record { id, count, phase };
    Transaction { txn }
}

// Commits, at most `n` steps, and says the last answer and the checks of staging and pool.
pub fn commit(
    rt: &impl Print,
    name: &str,
    t: Transaction,
    p: &mut [u8],
    s: &[u8],
    n: usize,
) -> io::Result<()> {
    let started = t.commit(p, s);
    let r = saving::steps(started, p, s, n);
    answer(rt, name, r.answer)?;
    check(rt, "  check of staging: ", s)?;
    check(rt, "  check of that pool: ", p)
}

// Allocates the object with the tag 5 and the body hex 61, and commits that, at most `n` steps: a name for each of the two.
pub fn store(
    rt: &impl Print,
    names: [&str; 2],
    p: &mut [u8],
    s: &mut [u8],
    n: usize,
) -> io::Result<()> {
    let [allocated, committed] = names;
    let t = say(rt, allocated, begin(p).allocate(p, s, 5, b"a"))?;
    commit(rt, committed, t, p, s, n)
}

// Recovers the pool, and says the last answer.
pub fn recover(rt: &impl Print, name: &str, p: &mut [u8]) -> io::Result<()> {
    answer(rt, name, saving::recover(p).answer)
}

// The object at cell 0: its body, and the check in its head.
pub fn look(rt: &impl Print, p: &[u8]) -> io::Result<()> {
    body(rt, "  look: ", p, 0)?;
    head(rt, p)
}
