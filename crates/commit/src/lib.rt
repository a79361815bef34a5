// Commit by steps (01, "Commit, cut, recovery"): what its start and each step answer, the record then, and the step made; and all steps up to
// the next barrier.
#![tactic(auto)]

ghost use Rattle.std.specs.Prelude.{◌≡◌, IfOk};
ghost use Rattle.std.proofs.Math.Option.{none};
ghost use Rattle.rules.specs.Test.{first};
ghost use Rattle.rules.specs.Staging.{committing};
ghost use Rattle.rules.specs.Calls.{record_tests};
ghost use Rattle.powercut.specs.Commit.{commit_on, commit_step};
ghost use Rattle.refusals.specs.Number.{refusal_in};
ghost use Rattle.layout.specs.Meaning.{good, opened, shape_of};
ghost use Rattle.record.specs.Meaning.{given, phase_of};
ghost use Rattle.commit.specs.Stepped.{after_of, started_with, stepped_to, turn_tests};

use actions::Action;
use answers::Answer;
use layout::{Pool, Shape};
use record::{Phase, Record};
use refusals::Refusal;

// What a start or a step answers, and the record then. One of four such structs, and no generic one: `txn`, `transaction`, `recovery` and `count` name
// what each hands back.
#[derive(Clone, Copy)]
pub struct Stepped {
    pub answer: Answer,
    pub txn: Record,
}

// The start of a commit: done at once where there are no entries.
pub fn start(txn: Record) -> Stepped
    ensures { result ≡ started_with txn }
{
    if txn.count == 0 {
        return Stepped {
            answer: Answer::Done(0),
            txn: txn.in_phase(Phase::Closed),
        };
    }
    Stepped {
        answer: Answer::Started,
        txn: txn.in_phase(Phase::Committing(0)),
    }
}

// What step k of n, from 1, answers, and the record then: done with the last.
fn told(txn: Record, action: Action, k: usize, n: usize) -> Stepped
    ensures { result ≡ stepped_to txn action k n }
{
    if k == n {
        return Stepped {
            answer: Answer::Done(n),
            txn: txn.in_phase(Phase::Closed),
        };
    }
    Stepped {
        answer: action.answer(k),
        txn: txn.in_phase(Phase::Committing(k)),
    }
}

// From which step, less one, the commit in this phase goes on, or the first of refusals 29, 21.
fn judge(pool: &Pool, phase: Phase) -> Result<usize, Refusal>
    ensures refusal { refusal_in result ≡ first (turn_tests (shape_of pool.now.shape) pool.now.bytes.now (phase_of phase)) }
    ensures place { IfOk result (λ k. phase_of phase ≡ committing k) }
{
    let Phase::Committing(k) = phase else {
        return Err(Refusal::Phase);
    };
    if k == 0 && !pool_log::seals_zero(pool) {
        return Err(Refusal::Sealed);
    }
    Ok(k)
}

// Makes the next step of a commit whose record was judged, or the first of refusals 29, 21, which changes nothing. The pool is stored into, so its
// shape goes beside it, and that it opens is a clause.
pub fn step(s: Shape, pool: &mut [u8], staging: &[u8], txn: Record) -> Result<Stepped, Refusal>
    requires { (opened pool.old ≡ good (shape_of s)) × (first (record_tests (given pool.old staging.now txn)) ≡ none) }
    ensures { after_of txn result pool.new staging.now ≡ commit_step (given pool.old staging.now txn) }
{
    let k = judge(
        &Pool {
            bytes: pool,
            shape: s,
        },
        txn.phase,
    )?;
    let action = actions::commit_action(s, pool, staging, txn.count, k);
    actions::apply(pool, action);
    Ok(told(txn, action, k + 1, record::steps(txn.count)))
}

// The same with all steps up to and with the next barrier. Judged as a step is: a closure for what is made would be longer than these lines.
pub fn advance(s: Shape, pool: &mut [u8], staging: &[u8], txn: Record) -> Result<Stepped, Refusal>
    requires { (opened pool.old ≡ good (shape_of s)) × (first (record_tests (given pool.old staging.now txn)) ≡ none) }
    ensures { after_of txn result pool.new staging.now ≡ commit_on (given pool.old staging.now txn) }
{
    let k = judge(
        &Pool {
            bytes: pool,
            shape: s,
        },
        txn.phase,
    )?;
    let made = actions::parts::commit_part(s, pool, staging, txn.count, k);
    Ok(told(txn, Action::Barrier, made, record::steps(txn.count)))
}
