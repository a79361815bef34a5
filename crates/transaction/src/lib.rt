// The transaction (01, "Transactions"; "Commit, cut, recovery"): it goes in by value, and each call hands it back. Its entries lie in lent staging memory. No
// function has a `requires`: each answers for all inputs, and its contract is one equation with the definition of that call, which gives
// the answer and every byte of pool, staging and record.
#![tactic(auto)]

ghost use Rattle.std.specs.Prelude.{◌≡◌, ◌++◌, IfOk};
ghost use Rattle.rules.specs.Test.{first};
ghost use Rattle.rules.specs.Header.{shape_in};
ghost use Rattle.rules.specs.Plan.{allocate as Allocate, release, write as Write};
ghost use Rattle.rules.specs.Calls.{call, live_tests, record_tests, transaction_start};
ghost use Rattle.powercut.specs.Commit.{commit_on, commit_start, commit_step};
ghost use Rattle.layout.specs.Meaning.{answer, checked_of};
ghost use Rattle.layout.specs.Opened.{opened_of};
ghost use Rattle.record.specs.Meaning.{given};
ghost use Rattle.transaction.specs.Meaning.{after_of, given_of, refused_back, staged_back, start_of, stepped_back};

use answers::{Answer, Staged};
use commit::Stepped;
use layout::{Pool, Shape};
use record::Record;
use refusals::Refusal;

// A transaction is its record.
#[derive(Clone, Copy, Debug, PartialEq, Eq)]
pub struct Transaction {
    pub txn: Record,
}

// What a call answers, and the transaction that it hands back.
#[derive(Clone, Copy, Debug, PartialEq, Eq)]
pub struct Reply {
    pub answer: Answer,
    pub transaction: Transaction,
}

// What a refused call hands back: the transaction as it was.
fn refused(txn: Record, refusal: Refusal) -> Reply
    ensures { result ≡ refused_back txn refusal }
{
    Reply {
        answer: Answer::Refused(refusal),
        transaction: Transaction { txn },
    }
}

// What a call that stages words hands back: id and phase stay, and the count is the call's.
fn staged(txn: Record, made: Result<Staged, Refusal>) -> Reply
    ensures { result ≡ staged_back txn made }
{
    match made {
        Ok(s) => Reply {
            answer: s.answer,
            transaction: Transaction {
                txn: Record {
                    count: s.count,
                    ..txn
                },
            },
        },
        Err(refusal) => refused(txn, refusal),
    }
}

// What a commit's start or step hands back.
fn stepped(txn: Record, made: Result<Stepped, Refusal>) -> Reply
    ensures { result ≡ stepped_back txn made }
{
    match made {
        Ok(s) => Reply {
            answer: s.answer,
            transaction: Transaction { txn: s.txn },
        },
        Err(refusal) => refused(txn, refusal),
    }
}

// The pool's shape, or the first of refusals 2, 3, 4, 2, 9, 10, 11.
#[inline(always)] // else the shape goes through memory, a third of the time of a step of one entry
fn judge(pool: &[u8], staging: &[u8], txn: Record) -> Result<Shape, Refusal>
    ensures { checked_of result ≡ answer (first (record_tests (given pool.now staging.now txn))) (shape_in pool.now) }
{
    let pool = Pool::open(pool)?;
    record::judge(&pool, staging, txn)?;
    Ok(pool.shape)
}

// The pool for a call that stages words or starts a commit, or the first of these and then 29, 21. Not one function with `judge`: a step stores into the
// pool, which a `Pool` would lend.
fn ready<'a>(bytes: &'a [u8], staging: &[u8], txn: Record) -> Result<Pool<'a>, Refusal>
    ensures shape { opened_of result ≡ answer (first (record_tests (given bytes.now staging.now txn) ++ live_tests (given bytes.now staging.now txn))) (shape_in bytes.now) }
    ensures bytes { IfOk result (λ p. p.bytes.now ≡ bytes.now) }
{
    let pool = Pool::open(bytes)?;
    record::ready(&pool, staging, txn)?;
    Ok(pool)
}

impl Transaction {
    // Begins a transaction on this pool: open and without entries. A refused one is closed, and no call takes it.
    pub fn begin(pool: &[u8]) -> Reply
        ensures { start_of result ≡ transaction_start pool.now }
    {
        match pool_log::quiet(pool) {
            Ok(_) => Reply {
                answer: Answer::Taken,
                transaction: Transaction {
                    txn: Record::fresh(layout::id(pool)),
                },
            },
            Err(refusal) => refused(Record::unusable(), refusal),
        }
    }

    // Allocates an object with this tag and body: the address of its first cell.
    pub fn allocate(self, pool: &[u8], staging: &mut [u8], tag: u32, body: &[u8]) -> Reply
        ensures { after_of result pool.now staging.new ≡ call (given_of self pool.now staging.old) (Allocate tag body.now) }
    {
        let made = self.try_allocate(pool, staging, tag, body);
        staged(self.txn, made)
    }

    // What it stages, or the refusal.
    fn try_allocate(
        self,
        pool: &[u8],
        staging: &mut [u8],
        tag: u32,
        body: &[u8],
    ) -> Result<Staged, Refusal>
        ensures { after_of (staged_back self.txn result) pool.now staging.new ≡ call (given_of self pool.now staging.old) (Allocate tag body.now) }
    {
        let pool = ready(pool, staging, self.txn)?;
        allocate::allocate(&pool, staging, self.txn.count, tag, body)
    }

    // Writes `bytes` over the body of the object at the cell address `address`, from its byte `at` on.
    pub fn write(
        self,
        pool: &[u8],
        staging: &mut [u8],
        address: usize,
        at: usize,
        bytes: &[u8],
    ) -> Reply
        ensures { after_of result pool.now staging.new ≡ call (given_of self pool.now staging.old) (Write address at bytes.now) }
    {
        let made = self.try_write(pool, staging, address, at, bytes);
        staged(self.txn, made)
    }

    // What it stages, or the refusal.
    fn try_write(
        self,
        pool: &[u8],
        staging: &mut [u8],
        address: usize,
        at: usize,
        bytes: &[u8],
    ) -> Result<Staged, Refusal>
        ensures { after_of (staged_back self.txn result) pool.now staging.new ≡ call (given_of self pool.now staging.old) (Write address at bytes.now) }
    {
        let pool = ready(pool, staging, self.txn)?;
        write::write(&pool, staging, self.txn.count, address, at, bytes)
    }

    // Frees the object at the cell address `address`.
    pub fn free(self, pool: &[u8], staging: &mut [u8], address: usize) -> Reply
        ensures { after_of result pool.now staging.new ≡ call (given_of self pool.now staging.old) (release address) }
    {
        let made = self.try_free(pool, staging, address);
        staged(self.txn, made)
    }

    // What it stages, or the refusal.
    fn try_free(self, pool: &[u8], staging: &mut [u8], address: usize) -> Result<Staged, Refusal>
        ensures { after_of (staged_back self.txn result) pool.now staging.new ≡ call (given_of self pool.now staging.old) (release address) }
    {
        let pool = ready(pool, staging, self.txn)?;
        free::free(&pool, staging, self.txn.count, address)
    }

    // Starts the commit: closes staging and makes no store.
    pub fn commit(self, pool: &[u8], staging: &[u8]) -> Reply
        ensures { after_of result pool.now staging.now ≡ commit_start (given_of self pool.now staging.now) }
    {
        let made = self.try_commit(pool, staging);
        stepped(self.txn, made)
    }

    // What it comes to, or the refusal.
    fn try_commit(self, pool: &[u8], staging: &[u8]) -> Result<Stepped, Refusal>
        ensures { after_of (stepped_back self.txn result) pool.now staging.now ≡ commit_start (given_of self pool.now staging.now) }
    {
        ready(pool, staging, self.txn)?;
        Ok(commit::start(self.txn))
    }

    // Makes the next step of the commit: one aligned 8-byte store or one barrier.
    pub fn step(self, pool: &mut [u8], staging: &[u8]) -> Reply
        ensures { after_of result pool.new staging.now ≡ commit_step (given_of self pool.old staging.now) }
    {
        let made = self.try_step(pool, staging);
        stepped(self.txn, made)
    }

    // What it comes to, or the refusal.
    fn try_step(self, pool: &mut [u8], staging: &[u8]) -> Result<Stepped, Refusal>
        ensures { after_of (stepped_back self.txn result) pool.new staging.now ≡ commit_step (given_of self pool.old staging.now) }
    {
        let s = judge(pool, staging, self.txn)?;
        commit::step(s, pool, staging, self.txn)
    }

    // Makes all steps of the commit up to and with the next barrier.
    pub fn advance(self, pool: &mut [u8], staging: &[u8]) -> Reply
        ensures { after_of result pool.new staging.now ≡ commit_on (given_of self pool.old staging.now) }
    {
        let made = self.try_advance(pool, staging);
        stepped(self.txn, made)
    }

    // What it comes to, or the refusal.
    fn try_advance(self, pool: &mut [u8], staging: &[u8]) -> Result<Stepped, Refusal>
        ensures { after_of (stepped_back self.txn result) pool.new staging.now ≡ commit_on (given_of self pool.old staging.now) }
    {
        let s = judge(pool, staging, self.txn)?;
        commit::advance(s, pool, staging, self.txn)
    }
}
