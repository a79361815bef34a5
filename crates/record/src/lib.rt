// A transaction's record: the id of its pool, the entries counted, and its phase; judged (01, refusals 9, 10, 11, 29 and 21).
#![tactic(auto)]

ghost use Rattle.std.specs.Prelude.{◌≡◌, not, ◌++◌, ◌≤◌, length};
ghost use Rattle.rules.specs.Shape.{entry_limit, staging_size};
ghost use Rattle.rules.specs.Test.{first};
ghost use Rattle.rules.specs.Staging.{commit_length, fresh, impossible, is_live, past_commit, unusable};
ghost use Rattle.rules.specs.Calls.{live_tests, record_tests};
ghost use Rattle.layout.specs.Meaning.{good, opened, shape_of};
ghost use Rattle.refusals.specs.Number.{refusal_in};
ghost use Rattle.record.specs.Meaning.{given, in_phase, phase_of, record_of};

use layout::{Pool, Shape};
use refusals::Refusal;

// Open; k steps of the commit made; or closed.
#[derive(Clone, Copy, Debug, PartialEq, Eq)]
pub enum Phase {
    Open,
    Committing(usize),
    Closed,
}

// The id of the pool that it was begun on, the entries counted, and the phase.
#[derive(Clone, Copy, Debug, PartialEq, Eq)]
pub struct Record {
    pub id: u64,
    pub count: usize,
    pub phase: Phase,
}

impl Record {
    // On the pool with this id, open and without entries.
    pub fn fresh(id: u64) -> Record
        ensures { record_of result ≡ fresh id }
    {
        Record {
            id,
            count: 0,
            phase: Phase::Open,
        }
    }

    // What a refused begin hands back: no call takes it.
    pub fn unusable() -> Record
        ensures { record_of result ≡ unusable }
    {
        Record {
            id: 0,
            count: 0,
            phase: Phase::Closed,
        }
    }

    // In another phase.
    pub fn in_phase(self, phase: Phase) -> Record
        ensures { result ≡ in_phase self phase }
    {
        Record { phase, ..self }
    }
}

// The steps of a commit of `n` entries.
pub fn steps(n: usize) -> usize
    requires { n ≤ entry_limit }
    ensures { result ≡ commit_length n }
{
    if n == 0 { 0 } else { 6 * n + 9 }
}

// Whether the place is past the list of the commit's steps.
#[tactic(auto, unfolding(rules::specs::Staging::past_commit))]
fn past(txn: Record) -> bool
    requires { txn.count ≤ entry_limit }
    ensures { result ≡ past_commit txn.count (phase_of txn.phase) }
{
    match txn.phase {
        Phase::Committing(k) => steps(txn.count) <= k,
        Phase::Open | Phase::Closed => false,
    }
}

// Whether the record is possible.
#[tactic(auto, using(crate::proofs::Judging::impossible_many, crate::proofs::Judging::impossible_past, crate::proofs::Judging::possible_fits))]
fn possible(s: Shape, staging: &[u8], txn: Record) -> bool
    requires { staging_size ≤ length staging.now }
    ensures { result ≡ not (impossible (shape_of s) staging.now txn.count (phase_of txn.phase)) }
{
    txn.count <= Shape::ENTRIES && !past(txn) && pool_log::targets_fit(s, staging, 0, txn.count)
}

// The record judged on an opened pool; that it opens is a clause: a `Pool` is asked for its length alone. Good, or the first of refusals 9, 10, 11.
pub fn judge(pool: &Pool, staging: &[u8], txn: Record) -> Result<(), Refusal>
    requires { opened pool.now.bytes.now ≡ good (shape_of pool.now.shape) }
    ensures { refusal_in result ≡ first (record_tests (given pool.now.bytes.now staging.now txn)) }
{
    if staging.len() < Shape::STAGING {
        return Err(Refusal::Staging);
    }
    if !possible(pool.shape, staging, txn) {
        return Err(Refusal::Record);
    }
    if txn.id != layout::id(pool.bytes) {
        return Err(Refusal::Pool);
    }
    Ok(())
}

// Whether the transaction is open.
#[tactic(auto, using(crate::proofs::Judging::live_else), unfolding(rules::specs::Staging::is_live))]
fn live(txn: Record) -> bool
    ensures { result ≡ is_live (phase_of txn.phase) }
{
    matches!(txn.phase, Phase::Open)
}

// The same for a call that stages words or starts a commit: then 29, 21.
pub fn ready(pool: &Pool, staging: &[u8], txn: Record) -> Result<(), Refusal>
    requires { opened pool.now.bytes.now ≡ good (shape_of pool.now.shape) }
    ensures { refusal_in result ≡ first (record_tests (given pool.now.bytes.now staging.now txn) ++ live_tests (given pool.now.bytes.now staging.now txn)) }
{
    judge(pool, staging, txn)?;
    if !live(txn) {
        return Err(Refusal::Phase);
    }
    if !pool_log::seals_zero(pool) {
        return Err(Refusal::Sealed);
    }
    Ok(())
}
