// The calls on a recovery.
ghost use Rattle.std.specs.Prelude.{◌≡◌};
ghost use Rattle.powercut.specs.Recovery.{recovery_on, recovery_start, recovery_step};
ghost use Rattle.answers.specs.Meaning.{answer_of};
ghost use Rattle.recovery.specs.Meaning.{progress_of, recovery_of, remedy_of};
ghost use Rattle.pool_c.specs.Meaning.{Fits64, progress_in, progress_out, recovery_after_out, recovery_in, recovery_reply_out, work_in, work_out};

use answers::{kind, value};
use recovery::{Log, Progress, Remedy};

// The id of its pool. What is to be done: 0 nothing, 1 clear both seals, 2 neither log is valid, 2n + 3 replay log A with n entries, 2n + 4 log B; and the phase:
// 0 finished, k + 1 after k steps.
#[repr(C)]
#[derive(Clone, Copy)]
pub struct Recovery {
    pub id: u64,
    pub work: usize,
    pub phase: usize,
}

// What a call answers, and the recovery that it hands back.
#[repr(C)]
#[derive(Clone, Copy)]
pub struct RecoveryReply {
    pub kind: usize,
    pub value: usize,
    pub recovery: Recovery,
}

// The remedy that a number stands for. No From: both types are of other crates.
fn work_in(n: usize) -> Remedy
    ensures { remedy_of result ≡ work_in n }
{
    match n {
        0 => Remedy::Nothing,
        1 => Remedy::Clear,
        2 => Remedy::Neither,
        _ if n % 2 == 1 => Remedy::Replay(Log::A, (n - 3) / 2),
        _ => Remedy::Replay(Log::B, (n - 4) / 2),
    }
}

// The number of a remedy. No From: it has a `requires`.
fn work_out(work: Remedy) -> usize
    requires { Fits64 (work_out (remedy_of work)) }
    ensures { result ≡ work_out (remedy_of work) }
{
    match work {
        Remedy::Nothing => 0,
        Remedy::Clear => 1,
        Remedy::Neither => 2,
        Remedy::Replay(Log::A, n) => 2 * n + 3,
        Remedy::Replay(Log::B, n) => 2 * n + 4,
    }
}

// The phase that a number stands for. No From: both types are of other crates. As `phase_in` and `phase_out` in all, by other numbers: include/pool.h has
// them so.
fn progress_in(n: usize) -> Progress
    ensures { progress_of result ≡ progress_in n }
{
    match n {
        0 => Progress::Finished,
        _ => Progress::Recovering(n - 1),
    }
}

// The number of a phase. No From: it has a `requires`.
fn progress_out(phase: Progress) -> usize
    requires { Fits64 (progress_out (progress_of phase)) }
    ensures { result ≡ progress_out (progress_of phase) }
{
    match phase {
        Progress::Finished => 0,
        Progress::Recovering(k) => k + 1,
    }
}

// The recovery that goes in.
impl From<Recovery> for recovery::Recovery {
    ghost from_gives = { λ r d. recovery_of d ≡ recovery_in r };

    fn from(r: Recovery) -> recovery::Recovery {
        recovery::Recovery {
            id: r.id,
            work: work_in(r.work),
            phase: progress_in(r.phase),
        }
    }
}

// The reply that goes out. No From: it has a `requires`.
fn encoded(r: recovery::Reply) -> RecoveryReply
    requires { Fits64 (work_out (remedy_of r.recovery.work)) × Fits64 (progress_out (progress_of r.recovery.phase)) }
    ensures { result ≡ recovery_reply_out (answer_of r.answer) (recovery_of r.recovery) }
{
    RecoveryReply {
        kind: kind(r.answer),
        value: value(r.answer),
        recovery: Recovery {
            id: r.recovery.id,
            work: work_out(r.recovery.work),
            phase: progress_out(r.recovery.phase),
        },
    }
}

// Starts a recovery.
#[unsafe(no_mangle)]
pub extern "C" fn pool_recover(pool: &[u8]) -> RecoveryReply
    ensures { (result, pool.now) ≡ recovery_after_out (recovery_start pool.now) }
{
    encoded(recovery::Recovery::start(pool))
}

// Makes the recovery's next step.
#[unsafe(no_mangle)]
pub extern "C" fn pool_recover_step(recovery: Recovery, pool: &mut [u8]) -> RecoveryReply
    ensures { (result, pool.new) ≡ recovery_after_out (recovery_step pool.old (recovery_in recovery)) }
{
    encoded(recovery::Recovery::from(recovery).step(pool))
}

// Makes all steps up to the recovery's next barrier.
#[unsafe(no_mangle)]
pub extern "C" fn pool_recover_advance(recovery: Recovery, pool: &mut [u8]) -> RecoveryReply
    ensures { (result, pool.new) ≡ recovery_after_out (recovery_on pool.old (recovery_in recovery)) }
{
    encoded(recovery::Recovery::from(recovery).advance(pool))
}
