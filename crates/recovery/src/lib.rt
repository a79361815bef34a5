// Recovery by steps (01, "Commit, cut, recovery"): its record, its start, one step, and all steps up to the next barrier. No call has a
// `requires`: each answers for all inputs, and its contract is one equation with the definition of that call, which gives the answer, the record and
// every byte of the pool.
#![tactic(auto)]

ghost use Rattle.std.specs.Prelude.{◌≡◌, ◌≤◌, false, get_or, length, IfOk};
ghost use Rattle.rules.specs.Shape.{entry_limit};
ghost use Rattle.rules.specs.Test.{first};
ghost use Rattle.powercut.specs.Log.{log_at};
ghost use Rattle.powercut.specs.Steps.{barrier, recovery_steps, remedy};
ghost use Rattle.powercut.specs.Recovery.{count_above, impossible_recovery, recovering, recovery_on, recovery_start, recovery_step};
ghost use Rattle.powercut.specs.Advance.{recovery_barrier};
ghost use Rattle.refusals.specs.Number.{refusal_in};
ghost use Rattle.layout.specs.Meaning.{Shaped, shape_of};
ghost use Rattle.pool_log.specs.Places.{LogAt};
ghost use Rattle.actions.specs.Actions.{Computed, action_of};
ghost use Rattle.actions.specs.Parts.{PartMade};
ghost use Rattle.recovery.specs.Meaning.{after_of, log_of, progress_of, recovery_of, remedy_of};
ghost use Rattle.recovery.specs.Advanced.{ReplayImpossible, begun, handed_back, impossible_at, lost_at, refused_start, replied, step_count, work_tests};

use actions::Action;
use actions::entries::Logged;
use answers::Answer;
use layout::{Pool, Shape};
use refusals::Refusal;

// The two logs.
#[derive(Clone, Copy, Debug, PartialEq, Eq)]
pub enum Log {
    A,
    B,
}

// What is to be done: a log, with its count, replayed; both seals cleared; nothing; or neither log is valid and no seal zero.
#[derive(Clone, Copy, Debug, PartialEq, Eq)]
pub enum Remedy {
    Replay(Log, usize),
    Clear,
    Nothing,
    Neither,
}

// The steps made so far, or all made. No Option: its two cases are 01's words, which Some and None would not say.
#[derive(Clone, Copy, Debug, PartialEq, Eq)]
pub enum Progress {
    Recovering(usize),
    Finished,
}

// The record that goes from call to call, with the id of the pool that it was begun on.
#[derive(Clone, Copy, Debug, PartialEq, Eq)]
pub struct Recovery {
    pub id: u64,
    pub work: Remedy,
    pub phase: Progress,
}

// What a call answers, with the record that it hands back.
#[derive(Clone, Copy, Debug, PartialEq, Eq)]
pub struct Reply {
    pub answer: Answer,
    pub recovery: Recovery,
}

impl Recovery {
    // Starts a recovery, or the first of refusals 2, 3, 4, 2, 22.
    pub fn start(pool: &[u8]) -> Reply
        ensures { after_of result pool.now ≡ recovery_start pool.now }
    {
        match Pool::open(pool) {
            Ok(pool) => begin(layout::id(pool.bytes), find(&pool)),
            Err(refusal) => refused(refusal),
        }
    }

    // Makes the next step, or the first of refusals 2, 3, 4, 2, 10, 11, 29.
    pub fn step(self, pool: &mut [u8]) -> Reply
        ensures { after_of result pool.new ≡ recovery_step pool.old (recovery_of self) }
    {
        let made = make_step(self, pool);
        hand_back(self, made)
    }

    // Makes all steps up to the next barrier, or the first of refusals 2, 3, 4, 2, 10, 11, 29.
    pub fn advance(self, pool: &mut [u8]) -> Reply
        ensures { after_of result pool.new ≡ recovery_on pool.old (recovery_of self) }
    {
        let made = make_part(self, pool);
        hand_back(self, made)
    }
}

// Where a log begins.
fn log_at(s: Shape, log: Log) -> usize
    ensures { result ≡ log_at (shape_of s) (log_of log) }
{
    match log {
        Log::A => s.log_a(),
        Log::B => s.log_b(),
    }
}

// What a recovery of the pool has to do.
#[tactic(auto, using(crate::proofs::Starting::find_only_a, crate::proofs::Starting::find_only_b))]
fn find(pool: &Pool) -> Remedy
    ensures { remedy_of result ≡ remedy (shape_of pool.now.shape) pool.now.bytes.now }
{
    let s = pool.shape;
    let a = words::load64(pool.bytes, s.log_a());
    let b = words::load64(pool.bytes, s.log_b());
    if pool_log::valid(pool, s.log_a()) {
        return Remedy::Replay(Log::A, pool_log::count(a));
    }
    if pool_log::valid(pool, s.log_b()) {
        return Remedy::Replay(Log::B, pool_log::count(b));
    }
    match (a, b) {
        (0, 0) => Remedy::Nothing,
        (0, _) | (_, 0) => Remedy::Clear,
        _ => Remedy::Neither,
    }
}

// What a refused start hands back: no call takes it.
fn refused(refusal: Refusal) -> Reply
    ensures { result ≡ refused_start refusal }
{
    Reply {
        answer: Answer::Refused(refusal),
        recovery: Recovery {
            id: 0,
            work: Remedy::Neither,
            phase: Progress::Finished,
        },
    }
}

// A recovery started; done at once if it has no step; refusal 22 if neither log is valid and no seal zero.
fn begin(id: u64, work: Remedy) -> Reply
    ensures { result ≡ begun id work }
{
    match work {
        Remedy::Replay(_, _) | Remedy::Clear => Reply {
            answer: Answer::Started,
            recovery: Recovery {
                id,
                work,
                phase: Progress::Recovering(0),
            },
        },
        Remedy::Nothing => Reply {
            answer: Answer::Done(0),
            recovery: Recovery {
                id,
                work,
                phase: Progress::Finished,
            },
        },
        Remedy::Neither => refused(Refusal::NoLog),
    }
}

// What a call hands back: its reply, or its refusal with the record as it was.
fn hand_back(recovery: Recovery, made: Result<Reply, Refusal>) -> Reply
    ensures { result ≡ handed_back recovery made }
{
    match made {
        Ok(reply) => reply,
        Err(refusal) => Reply {
            answer: Answer::Refused(refusal),
            recovery,
        },
    }
}

// The next step made, or the first of refusals 2, 3, 4, 2, 10, 11, 29.
fn make_step(recovery: Recovery, pool: &mut [u8]) -> Result<Reply, Refusal>
    ensures { after_of (handed_back recovery result) pool.new ≡ recovery_step pool.old (recovery_of recovery) }
{
    let opened = Pool::open(pool)?;
    let k = judge(recovery, &opened)?;
    let action = action_at(recovery.work, k, &opened);
    actions::apply(pool, action);
    Ok(told(recovery, action, k + 1))
}

// All steps up to the next barrier made, or the first of refusals 2, 3, 4, 2, 10, 11, 29. Judged as a step is: a closure for what is made would be
// longer than these lines.
fn make_part(recovery: Recovery, pool: &mut [u8]) -> Result<Reply, Refusal>
    ensures { after_of (handed_back recovery result) pool.new ≡ recovery_on pool.old (recovery_of recovery) }
{
    let opened = Pool::open(pool)?;
    let k = judge(recovery, &opened)?;
    let s = opened.shape;
    let made = part_at(recovery.work, k, s, pool);
    Ok(told(recovery, Action::Barrier, made))
}

// How many steps are made, or the first of refusals 10, 11, 29.
fn judge(recovery: Recovery, pool: &Pool) -> Result<usize, Refusal>
    ensures refusal { refusal_in result ≡ first (work_tests (shape_of pool.now.shape) pool.now.bytes.now (recovery_of recovery)) }
    ensures place { IfOk result (λ k. progress_of recovery.phase ≡ recovering k) }
{
    if impossible(recovery.work, recovery.phase, pool) {
        return Err(Refusal::Record);
    }
    if recovery.id != layout::id(pool.bytes) {
        return Err(Refusal::Pool);
    }
    match recovery.phase {
        Progress::Recovering(k) => Ok(k),
        Progress::Finished => Err(Refusal::Phase),
    }
}

// Whether the record is impossible: while recovering, by its place and its log too.
fn impossible(work: Remedy, phase: Progress, pool: &Pool) -> bool
    ensures { result ≡ impossible_recovery (shape_of pool.now.shape) pool.now.bytes.now (remedy_of work) (progress_of phase) }
{
    match phase {
        Progress::Recovering(k) => impossible_at(work, k, pool),
        Progress::Finished => many(work),
    }
}

// Whether the count is above 127.
fn many(work: Remedy) -> bool
    ensures { result ≡ count_above (remedy_of work) }
{
    match work {
        Remedy::Replay(_, n) => Shape::ENTRIES < n,
        Remedy::Clear | Remedy::Nothing | Remedy::Neither => false,
    }
}

// Whether a recovery with k steps made is impossible.
fn impossible_at(work: Remedy, k: usize, pool: &Pool) -> bool
    ensures { result ≡ impossible_at (shape_of pool.now.shape) pool.now.bytes.now (remedy_of work) k }
{
    match work {
        Remedy::Replay(log, n) => cannot_replay(pool, log_at(pool.shape, log), n, k),
        Remedy::Clear => 3 <= k,
        Remedy::Nothing | Remedy::Neither => true,
    }
}

// Whether the replay of the log at `b` with the count `n` is impossible.
fn cannot_replay(pool: &Pool, b: usize, n: usize, k: usize) -> bool
    requires { LogAt (shape_of pool.now.shape) b }
    ensures { ReplayImpossible (shape_of pool.now.shape) pool.now.bytes.now b n k result }
{
    Shape::ENTRIES < n || 2 * n + 5 <= k || lost(pool, b, n, k)
}

// Whether step k stores data or parity, or is the barrier after either, and the log at `b` is no longer valid with the count `n`.
fn lost(pool: &Pool, b: usize, n: usize, k: usize) -> bool
    requires { LogAt (shape_of pool.now.shape) b × (n ≤ entry_limit) }
    ensures { result ≡ lost_at (shape_of pool.now.shape) pool.now.bytes.now b n k }
{
    if 2 * n + 2 <= k {
        return false;
    }
    !pool_log::valid(pool, b) || pool_log::count(words::load64(pool.bytes, b)) != n
}

// Step k of a recovery that is possible.
fn action_at(work: Remedy, k: usize, pool: &Pool) -> Action
    requires { impossible_at (shape_of pool.now.shape) pool.now.bytes.now (remedy_of work) k ≡ false }
    ensures { Computed (action_of (shape_of pool.now.shape) pool.now.bytes.now (get_or (recovery_steps (shape_of pool.now.shape) pool.now.bytes.now (remedy_of work)) k barrier)) (length pool.now.bytes.now) result }
{
    let (s, p) = (pool.shape, pool.bytes);
    match work {
        Remedy::Replay(log, n) => actions::redo_action(s, p, p, log_at(s, log) + 16, n, k),
        Remedy::Clear => actions::clear_action(pool, k),
        Remedy::Nothing | Remedy::Neither => Action::Barrier,
    }
}

// The steps of a recovery that is possible from step k + 1 on, up to the next barrier: that barrier's number.
fn part_at(work: Remedy, k: usize, s: Shape, pool: &mut [u8]) -> usize
    requires { Shaped pool.old (shape_of s) × (impossible_at (shape_of s) pool.old (remedy_of work) k ≡ false) }
    ensures { PartMade (shape_of s) (recovery_steps (shape_of s) pool.old (remedy_of work)) k (recovery_barrier (remedy_of work) k) pool.old pool.new result }
{
    match work {
        Remedy::Replay(log, n) => {
            actions::parts::redo_part(s, pool, &Logged, log_at(s, log) + 16, n, k)
        }
        Remedy::Clear => actions::parts::clear_part(s, pool, k),
        Remedy::Nothing | Remedy::Neither => 0,
    }
}

// How many steps a recovery has.
fn steps_of(work: Remedy) -> usize
    requires { count_above (remedy_of work) ≡ false }
    ensures { result ≡ step_count (remedy_of work) }
{
    match work {
        Remedy::Replay(_, n) => 2 * n + 5,
        Remedy::Clear => 3,
        Remedy::Nothing | Remedy::Neither => 0,
    }
}

// The reply to step k, from 1: done with the last. As `commit::told`, with another record: one function for both would be handed how each record
// goes on, which is longer.
fn told(recovery: Recovery, action: Action, k: usize) -> Reply
    requires { count_above (remedy_of recovery.work) ≡ false }
    ensures { result ≡ replied recovery action k (step_count (remedy_of recovery.work)) }
{
    let n = steps_of(recovery.work);
    if k == n {
        return Reply {
            answer: Answer::Done(n),
            recovery: Recovery {
                phase: Progress::Finished,
                ..recovery
            },
        };
    }
    Reply {
        answer: action.answer(k),
        recovery: Recovery {
            phase: Progress::Recovering(k),
            ..recovery
        },
    }
}
