// A recovery and a commit made part after part, the file written at each barrier. Each answers whether the program goes on.
ghost use Rattle.std.specs.Prelude.{◌≡◌};

use crate::file::keep;
use answers::Answer;
use recovery::Recovery;
use refusals::Refusal;
use std::fs::OpenFile;
use std::io;
use std::io::{Seek, Write};
use transaction::Transaction;

// No `Display`: `Refusal` is of another crate, where alone one could stand, and what is printed is this program's.
pub fn refused(rt: &impl Print, refusal: Refusal) -> io::Result<()> {
    let n = refusal.number();
    println!(rt; "(refused {n})")
}

// Makes part after part with `advance`, at most `parts` of them, while there are steps to make. False for a refusal, which is printed, and if the
// file could not be written.
fn advance_all<F: Write + Seek + OpenFile, A: FnMut(&mut [u8]) -> Answer>(
    rt: &(impl Print + Eprint),
    file: &mut Option<F>,
    pool: &mut [u8],
    first: Answer,
    parts: usize,
    mut advance: A,
) -> io::Result<bool>
    requires { A.IsAlwaysCallable advance }
{
    let mut answer = first;
    // By number: a recovery or a commit is no iterator, and the number alone tells that the loop ends.
    for _ in 0..parts {
        if !matches!(answer, Answer::Started | Answer::Barrier(_)) {
            break;
        }
        answer = advance(pool);
        if !keep(rt, file, pool) {
            return Ok(false);
        }
    }
    if let Answer::Refused(refusal) = answer {
        refused(rt, refusal)?;
        return Ok(false);
    }
    Ok(true)
}

// Recovers the pool: no recovery has more than three parts.
pub fn recover<F: Write + Seek + OpenFile>(
    rt: &(impl Print + Eprint),
    file: &mut Option<F>,
    pool: &mut [u8],
) -> io::Result<bool> {
    let mut r = Recovery::start(pool);
    let first = r.answer;
    advance_all(rt, file, pool, first, 3, |pool| {
        r = r.recovery.advance(pool);
        r.answer
    })
}

// Commits the transaction: a commit has five parts.
pub fn commit<F: Write + Seek + OpenFile>(
    rt: &(impl Print + Eprint),
    file: &mut Option<F>,
    pool: &mut [u8],
    txn: Transaction,
    staging: &[u8],
) -> io::Result<bool> {
    let mut r = txn.commit(pool, staging);
    let first = r.answer;
    advance_all(rt, file, pool, first, 5, |pool| {
        r = r.transaction.advance(pool, staging);
        r.answer
    })
}
