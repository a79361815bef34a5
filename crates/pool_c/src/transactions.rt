// The calls on a transaction.
ghost use Rattle.std.specs.Prelude.{◌≡◌};
ghost use Rattle.rules.specs.Plan.{allocate as Allocate, release, write as Write};
ghost use Rattle.rules.specs.Calls.{call, transaction_start};
ghost use Rattle.powercut.specs.Commit.{commit_on, commit_start, commit_step};
ghost use Rattle.answers.specs.Meaning.{answer_of};
ghost use Rattle.record.specs.Meaning.{phase_of};
ghost use Rattle.transaction.specs.Meaning.{transaction_of};
ghost use Rattle.pool_c.specs.Meaning.{after_out, Fits64, given_in, phase_in, phase_out, reply_out, start_out, transaction_in, transaction_out};

use answers::{kind, value};
use record::{Phase, Record};

// The id of its pool, the entries staged, and the phase: 0 open, 1 closed, k + 2 after k steps of the commit.
#[repr(C)]
#[derive(Clone, Copy)]
pub struct Transaction {
    pub id: u64,
    pub count: usize,
    pub phase: usize,
}

// What a call answers, and the transaction that it hands back.
#[repr(C)]
#[derive(Clone, Copy)]
pub struct Reply {
    pub kind: usize,
    pub value: usize,
    pub transaction: Transaction,
}

// The phase that a number stands for. No From: both types are of other crates.
fn phase_in(n: usize) -> Phase
    ensures { phase_of result ≡ phase_in n }
{
    match n {
        0 => Phase::Open,
        1 => Phase::Closed,
        _ => Phase::Committing(n - 2),
    }
}

// The number of a phase. No From: it has a `requires`.
fn phase_out(phase: Phase) -> usize
    requires { Fits64 (phase_out (phase_of phase)) }
    ensures { result ≡ phase_out (phase_of phase) }
{
    match phase {
        Phase::Open => 0,
        Phase::Closed => 1,
        Phase::Committing(k) => k + 2,
    }
}

// The transaction that goes in.
impl From<Transaction> for transaction::Transaction {
    ghost from_gives = { λ t d. transaction_of d ≡ transaction_in t };

    fn from(t: Transaction) -> transaction::Transaction {
        transaction::Transaction {
            txn: Record {
                id: t.id,
                count: t.count,
                phase: phase_in(t.phase),
            },
        }
    }
}

// The transaction that goes out. No From: it has a `requires`.
pub(crate) fn handed_out(t: transaction::Transaction) -> Transaction
    requires { Fits64 (phase_out (phase_of t.txn.phase)) }
    ensures { result ≡ transaction_out (transaction_of t) }
{
    Transaction {
        id: t.txn.id,
        count: t.txn.count,
        phase: phase_out(t.txn.phase),
    }
}

// The reply that goes out. No From: it has a `requires`.
pub(crate) fn encoded(r: transaction::Reply) -> Reply
    requires { Fits64 (phase_out (phase_of r.transaction.txn.phase)) }
    ensures { result ≡ reply_out (answer_of r.answer) (transaction_of r.transaction) }
{
    Reply {
        kind: kind(r.answer),
        value: value(r.answer),
        transaction: handed_out(r.transaction),
    }
}

// Begins a transaction on this pool: open, without entries.
#[unsafe(no_mangle)]
pub extern "C" fn pool_begin(pool: &[u8]) -> Reply
    ensures { result ≡ start_out (transaction_start pool.now) }
{
    encoded(transaction::Transaction::begin(pool))
}

// Allocates an object with this tag and body.
#[unsafe(no_mangle)]
pub extern "C" fn pool_allocate(
    transaction: Transaction,
    pool: &[u8],
    staging: &mut [u8],
    tag: u32,
    body: &[u8],
) -> Reply
    ensures { (result, pool.now, staging.new) ≡ after_out (call (given_in transaction pool.now staging.old) (Allocate tag body.now)) }
{
    encoded(transaction::Transaction::from(transaction).allocate(pool, staging, tag, body))
}

// Writes bytes over the body of the object at this address, from its byte `at` on.
#[unsafe(no_mangle)]
pub extern "C" fn pool_write(
    transaction: Transaction,
    pool: &[u8],
    staging: &mut [u8],
    address: usize,
    at: usize,
    bytes: &[u8],
) -> Reply
    ensures { (result, pool.now, staging.new) ≡ after_out (call (given_in transaction pool.now staging.old) (Write address at bytes.now)) }
{
    encoded(transaction::Transaction::from(transaction).write(pool, staging, address, at, bytes))
}

// Frees the object at this address.
#[unsafe(no_mangle)]
pub extern "C" fn pool_free(
    transaction: Transaction,
    pool: &[u8],
    staging: &mut [u8],
    address: usize,
) -> Reply
    ensures { (result, pool.now, staging.new) ≡ after_out (call (given_in transaction pool.now staging.old) (release address)) }
{
    encoded(transaction::Transaction::from(transaction).free(pool, staging, address))
}

// Starts the commit.
#[unsafe(no_mangle)]
pub extern "C" fn pool_commit(transaction: Transaction, pool: &[u8], staging: &[u8]) -> Reply
    ensures { (result, pool.now, staging.now) ≡ after_out (commit_start (given_in transaction pool.now staging.now)) }
{
    encoded(transaction::Transaction::from(transaction).commit(pool, staging))
}

// Makes the commit's next step.
#[unsafe(no_mangle)]
pub extern "C" fn pool_commit_step(
    transaction: Transaction,
    pool: &mut [u8],
    staging: &[u8],
) -> Reply
    ensures { (result, pool.new, staging.now) ≡ after_out (commit_step (given_in transaction pool.old staging.now)) }
{
    encoded(transaction::Transaction::from(transaction).step(pool, staging))
}

// Makes the commit's steps up to and with the next barrier.
#[unsafe(no_mangle)]
pub extern "C" fn pool_commit_advance(
    transaction: Transaction,
    pool: &mut [u8],
    staging: &[u8],
) -> Reply
    ensures { (result, pool.new, staging.now) ≡ after_out (commit_on (given_in transaction pool.old staging.now)) }
{
    encoded(transaction::Transaction::from(transaction).advance(pool, staging))
}
