// One step of a commit or of a recovery, computed from its number and applied (01, "Commit, cut, recovery").
#![tactic(auto)]

ghost use Rattle.std.specs.Prelude.{◌≡◌, ◌+◌, ◌*◌, ◌≤◌, ◌<◌, length};
ghost use Rattle.rules.specs.Words.{word};
ghost use Rattle.rules.specs.Shape.{InZones, entry_limit, pool_size, zones_at};
ghost use Rattle.layout.specs.Meaning.{shape_of};
ghost use Rattle.actions.specs.Actions.{Computed, Inside, Ready, applied, clear_action, commit_action, log_action, parity_action, redo_action, seal_action, told_of};

use answers::Answer;
use layout::{Pool, Shape};

pub mod entries; // where entries are read
pub mod parts; // the steps up to the next barrier

// What a step does to the pool that it meets: one aligned 8-byte store, or a barrier. No Option: its two cases are 01's words.
#[derive(Clone, Copy, Debug, PartialEq, Eq)]
pub enum Action {
    Store { at: usize, val: u64 },
    Barrier,
}

impl Action {
    // What its step answers, with the number `k`, unless it is the last.
    pub fn answer(self, k: usize) -> Answer
        ensures { result ≡ told_of k self }
    {
        match self {
            Action::Store { .. } => Answer::Stored(k),
            Action::Barrier => Answer::Barrier(k),
        }
    }
}

// Part 1, step k: target and word of entry k / 4, in A, then in B.
fn log_action(s: Shape, src: &[u8], n: usize, k: usize) -> Action
    requires { (k < 4 * n) × (n ≤ entry_limit) × (16 * n ≤ length src.now) }
    ensures { Computed (log_action (shape_of s) src.now k) (zones_at (shape_of s)) result }
{
    let log = if k % 4 < 2 { s.log_a() } else { s.log_b() };
    let o = 16 * (k / 4) + 8 * (k % 2);
    Action::Store {
        at: log + 16 + o,
        val: words::load64(src, o),
    }
}

// A barrier, both seals with `w`, a barrier.
fn seal_action(s: Shape, w: u64, k: usize) -> Action
    ensures { Computed (seal_action (shape_of s) w k) (zones_at (shape_of s)) result }
{
    match k {
        1 => Action::Store {
            at: s.log_a(),
            val: w,
        },
        2 => Action::Store {
            at: s.log_b(),
            val: w,
        },
        _ => Action::Barrier,
    }
}

// Step k of a recovery that clears both seals.
pub fn clear_action(pool: &Pool, k: usize) -> Action
    ensures { Computed (clear_action (shape_of pool.now.shape) pool.now.bytes.now k) (length pool.now.bytes.now) result }
{
    if k < 2 {
        return seal_action(pool.shape, 0, k + 1);
    }
    Action::Barrier
}

// Part 3: the data word of the entry at `a`.
fn data_action(src: &[u8], a: usize) -> Action
    requires { a + 16 ≤ length src.now }
    ensures { result ≡ Action.Store (word src.now a) (word src.now (a + 8)) }
{
    Action::Store {
        at: words::load64(src, a) as usize,
        val: words::load64(src, a + 8),
    }
}

// Part 4: the parity word at the place of the target `t`, from all data rows. The pool is stored into between such steps, so its shape goes beside it.
fn parity_action(s: Shape, pool: &[u8], t: usize) -> Action
    requires { (InZones (shape_of s) t) × (length pool.now ≡ pool_size (shape_of s)) }
    ensures { Computed (parity_action (shape_of s) pool.now t) (length pool.now) result }
{
    Action::Store {
        at: parity::parity_at(s, t),
        val: parity::parity_word(s, pool, t),
    }
}

// Step k of parts 3 to 5, for the n entries at `at` of `src`: staging's in a commit, the log's own in a recovery. By its number, which the answer
// tells: no iterator, since each call makes one step. `Ready` ties pool, entries and step, and the pool is stored into between steps: a clause, no value.
pub fn redo_action(s: Shape, pool: &[u8], src: &[u8], at: usize, n: usize, k: usize) -> Action
    requires { Ready (shape_of s) pool.now src.now at n k }
    ensures { Computed (redo_action (shape_of s) pool.now src.now at n k) (length pool.now) result }
{
    if k < n {
        return data_action(src, at + 16 * k);
    }
    if k == n {
        return Action::Barrier;
    }
    if k < 2 * n + 1 {
        let t = words::load64(src, at + 16 * (k - n - 1)) as usize;
        return parity_action(s, pool, t);
    }
    seal_action(s, 0, k - (2 * n + 1))
}

// Step k of the commit of the n entries in `staging`.
pub fn commit_action(s: Shape, pool: &[u8], staging: &[u8], n: usize, k: usize) -> Action
    requires { (Ready (shape_of s) pool.now staging.now 0 n 0) × (1 ≤ n) }
    ensures { Computed (commit_action (shape_of s) pool.now staging.now n k) (length pool.now) result }
{
    if k < 4 * n {
        return log_action(s, staging, n, k);
    }
    let m = k - 4 * n;
    if m < 4 {
        return seal_action(s, pool_log::seal(staging, 0, n), m);
    }
    redo_action(s, pool, staging, 0, n, m - 4)
}

// The step made.
pub fn apply(pool: &mut [u8], action: Action)
    requires { Inside action (length pool.old) }
    ensures { pool.new ≡ applied action pool.old }
{
    match action {
        Action::Store { at, val } => words::store64(pool, at, val),
        Action::Barrier => {}
    }
}
