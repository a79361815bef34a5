// Callers of the transaction's and the recovery's calls, proved from the contracts of these alone: a commit made step after step or part after part, an object
// saved, one allocated and freed again, and a recovery driven to its end. No function has a `requires`.
#![tactic(auto)]

ghost use Rattle.std.specs.Prelude.{◌≡◌, ℕ, List};
ghost use Rattle.rules.specs.Answer.{After, Given};
ghost use Rattle.answers.specs.Meaning.{answer_of};
ghost use Rattle.transaction.specs.Meaning.{after_of, given_of};
ghost use Rattle.recovery.specs.Meaning.{after_of as recovered_of};
ghost use Rattle.powercut.specs.Commit.{commit_step};
ghost use Rattle.saving.specs.Saving.{allocated, calls_from, committed, is_done, is_end, Saves};
ghost use Rattle.saving.specs.Meaning.{outcome_of};
ghost use Rattle.saving.specs.TakenBack.{TakesBack};
ghost use Rattle.saving.specs.Recovering.{Recovers};

use answers::{Answer, is_refused};
use recovery::Recovery;
use transaction::{Reply, Transaction};

#[tactic(auto, using(crate::proofs::DoneOnly::done_only), unfolding(crate::specs::Saving::is_done))]
fn is_done(answer: Answer) -> bool
    ensures { result ≡ is_done (answer_of answer) }
{
    matches!(answer, Answer::Done(_))
}

// Whether this answer ends a commit or a recovery.
#[tactic(auto, unfolding(crate::specs::Saving::is_end))]
fn ends(answer: Answer) -> bool
    ensures { result ≡ is_end (answer_of answer) }
{
    is_done(answer) || is_refused(answer)
}

// Makes at most `n` calls more by `next`, from what the last call handed back. If each such call is one of `f`, those made are `f`'s too. The loop
// of `recover` stays apart: a recovery's replies are another type, and a trait over the two would be longer than that loop.
fn make_calls<F: Fn(Transaction, &mut [u8]) -> Reply>(
    reply: Reply,
    pool: &mut [u8],
    n: usize,
    next: F,
) -> Reply
    requires { F.IsAlwaysCallable next }
    ensures { (f : Given → After) (staging : List ℕ) → ((t : _) (p : _) (r : _) (q : _) → F.post next t p r q → after_of r q.now staging ≡ f (given_of t p.now staging)) → after_of result pool.new staging ≡ calls_from f n (after_of reply pool.old staging) }
{
    let mut r = reply;
    // By number: the calls are no items, and the number is all that ends them.
    for _ in 0..n {
        if ends(r.answer) {
            return r;
        }
        r = next(r.transaction, pool);
    }
    r
}

// Makes at most `budget` steps more, from what the last call handed back.
pub fn steps(reply: Reply, pool: &mut [u8], staging: &[u8], budget: usize) -> Reply
    ensures { after_of result pool.new staging.now ≡ calls_from commit_step budget (after_of reply pool.old staging.now) }
{
    make_calls(reply, pool, budget, |t, pool| t.step(pool, staging))
}

// Starts the commit and makes it, part after part: a commit has five.
pub fn run(txn: Transaction, pool: &mut [u8], staging: &[u8]) -> Reply
    ensures { after_of result pool.new staging.now ≡ committed (given_of txn pool.old staging.now) }
{
    let first = txn.commit(pool, staging);
    make_calls(first, pool, 5, |t, pool| t.advance(pool, staging))
}

// Allocates an object in a transaction of its own; a refused beginning is handed back as it is.
fn allocated(pool: &[u8], staging: &mut [u8], tag: u32, body: &[u8]) -> Reply
    ensures { after_of result pool.now staging.new ≡ allocated pool.now staging.old tag body.now }
{
    let begun = Transaction::begin(pool);
    if is_refused(begun.answer) {
        return begun;
    }
    begun.transaction.allocate(pool, staging, tag, body)
}

// Saves an object: begins a transaction, allocates the object in it, and commits. Its address, or a refusal.
pub fn save(pool: &mut [u8], staging: &mut [u8], tag: u32, body: &[u8]) -> Answer
    ensures { Saves pool.old staging.old tag body.now (outcome_of result pool.new staging.new) }
{
    let first = allocated(pool, staging, tag, body);
    if is_refused(first.answer) {
        return first.answer;
    }
    let last = run(first.transaction, pool, staging);
    if is_done(last.answer) {
        return first.answer;
    }
    last.answer
}

// Allocates an object and frees it again: where both calls are taken, a commit would leave the old book.
pub fn take_back(pool: &[u8], staging: &mut [u8], tag: u32, body: &[u8]) -> Reply
    ensures { TakesBack pool.now staging.old tag body.now (after_of result pool.now staging.new) }
{
    let first = allocated(pool, staging, tag, body);
    let Answer::Address(a) = first.answer else {
        return first;
    };
    first.transaction.free(pool, staging, a)
}

// Recovers the pool, part after part: no recovery has more than three. What the last call answered and handed back.
pub fn recover(pool: &mut [u8]) -> recovery::Reply
    ensures { Recovers pool.old (recovered_of result pool.new) }
{
    let mut last = Recovery::start(pool);
    // By number, as in make_calls.
    for _ in 0..3usize {
        if ends(last.answer) {
            return last;
        }
        last = last.recovery.advance(pool);
    }
    last
}
