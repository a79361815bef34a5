// The steps of a commit or of a recovery up to the next barrier: one aligned 8-byte store for each, in the list's order. Nothing is judged here.
ghost use Rattle.std.specs.Prelude.{◌+◌, ◌*◌, ◌≤◌, ◌<◌};
ghost use Rattle.rules.specs.Shape.{zones_at};
ghost use Rattle.layout.specs.Meaning.{Shaped, shape_of};
ghost use Rattle.pool_log.specs.Targets.{read};
ghost use Rattle.powercut.specs.Steps.{clear, commit_steps, recovery_steps, redo};
ghost use Rattle.powercut.specs.Advance.{commit_barrier, redo_barrier};
ghost use Rattle.actions.specs.Actions.{Ready};
ghost use Rattle.actions.specs.Parts.{PartMade, seal_steps};

use crate::entries::{Entries, Staged};
use crate::{apply, data_action, log_action, parity_action};
use layout::Shape;

// Part 1 from step k + 1 on: the words of the n entries in `staging` into both logs.
fn log_part(s: Shape, pool: &mut [u8], staging: &[u8], n: usize, k: usize) -> usize
    requires { (Ready (shape_of s) pool.old staging.now 0 n 0) × (1 ≤ n) × (k ≤ 4 * n) }
    ensures { PartMade (shape_of s) (commit_steps (shape_of s) (read staging.now 0 n)) k (4 * n) pool.old pool.new result }
{
    // By the step's number, which an entry and its place in it come from: a commit goes on at any step.
    for i in k..4 * n {
        let action = log_action(s, staging, n, i);
        apply(pool, action);
    }
    4 * n + 1
}

// Both seals with `w`, from the one with number j on: 0 A's, 1 B's, 2 the barrier.
pub fn seal_part(s: Shape, pool: &mut [u8], w: u64, j: usize) -> usize
    requires { (Shaped pool.old (shape_of s)) × (j < 3) }
    ensures { PartMade (shape_of s) (seal_steps (shape_of s) w) j 2 pool.old pool.new result }
{
    if j == 0 {
        words::store64(pool, s.log_a(), w);
    }
    if j < 2 {
        words::store64(pool, s.log_b(), w);
    }
    3
}

// Part 3 from step k + 1 of parts 3 to 5 on: the data words of the n entries at `at` of `src`. By number, as part 4: an iterator over the entries
// would hold the pool that is stored into.
fn data_part<E: Entries>(s: Shape, pool: &mut [u8], src: &E, at: usize, n: usize, k: usize) -> usize
    requires { (Ready (shape_of s) pool.old (E.bytes src.now pool.old) at n k) × (at + 16 * n ≤ zones_at (shape_of s)) × (k ≤ n) }
    ensures { PartMade (shape_of s) (redo (shape_of s) (read (E.bytes src.now pool.old) at n)) k n pool.old pool.new result }
{
    for i in k..n {
        let action = data_action(src.bytes(pool), at + 16 * i);
        apply(pool, action);
    }
    n + 1
}

// Part 4, by number too, from its entry with number k on: the parity words at the places of the n entries at `at` of `src`.
fn parity_part<E: Entries>(
    s: Shape,
    pool: &mut [u8],
    src: &E,
    at: usize,
    n: usize,
    k: usize,
) -> usize
    requires { (Ready (shape_of s) pool.old (E.bytes src.now pool.old) at n (n + 1 + k)) × (at + 16 * n ≤ zones_at (shape_of s)) × (k ≤ n) }
    ensures { PartMade (shape_of s) (redo (shape_of s) (read (E.bytes src.now pool.old) at n)) (n + 1 + k) (2 * n + 1) pool.old pool.new result }
{
    for i in k..n {
        let t = words::load64(src.bytes(pool), at + 16 * i) as usize;
        let action = parity_action(s, pool, t);
        apply(pool, action);
    }
    2 * n + 2
}

// Parts 3 to 5 for the n entries at `at` of `src`, from step k + 1 on, up to the next barrier: that barrier's number. Data and parity are stored
// in the zones, behind the entries, so that what is read stays.
pub fn redo_part<E: Entries>(
    s: Shape,
    pool: &mut [u8],
    src: &E,
    at: usize,
    n: usize,
    k: usize,
) -> usize
    requires { (Ready (shape_of s) pool.old (E.bytes src.now pool.old) at n k) × (at + 16 * n ≤ zones_at (shape_of s)) × (k < 2 * n + 5) }
    ensures { PartMade (shape_of s) (redo (shape_of s) (read (E.bytes src.now pool.old) at n)) k (redo_barrier n k) pool.old pool.new result }
{
    if k <= n {
        return data_part(s, pool, src, at, n, k);
    }
    if k <= 2 * n + 1 {
        return parity_part(s, pool, src, at, n, k - n - 1);
    }
    2 * n + 2 + seal_part(s, pool, 0, k - (2 * n + 2))
}

// A recovery that clears both seals, from step k + 1 on: its barrier's number.
pub fn clear_part(s: Shape, pool: &mut [u8], k: usize) -> usize
    requires { (Shaped pool.old (shape_of s)) × (k < 3) }
    ensures { PartMade (shape_of s) (recovery_steps (shape_of s) pool.old clear) k 2 pool.old pool.new result }
{
    seal_part(s, pool, 0, k)
}

// The commit of the n entries in `staging`, from step k + 1 on, up to the next barrier: that barrier's number.
pub fn commit_part(s: Shape, pool: &mut [u8], staging: &[u8], n: usize, k: usize) -> usize
    requires { (Ready (shape_of s) pool.old staging.now 0 n 0) × (1 ≤ n) × (k < 6 * n + 9) }
    ensures { PartMade (shape_of s) (commit_steps (shape_of s) (read staging.now 0 n)) k (commit_barrier n k) pool.old pool.new result }
{
    if k <= 4 * n {
        return log_part(s, pool, staging, n, k);
    }
    if k <= 4 * n + 3 {
        let w = pool_log::seal(staging, 0, n);
        return 4 * n + 1 + seal_part(s, pool, w, k - (4 * n + 1));
    }
    4 * n + 4 + redo_part(s, pool, &Staged { staging }, 0, n, k - (4 * n + 4))
}
