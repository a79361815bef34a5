// Entries judged, the seal over them, and whether a log is valid (01, "Commit, cut, recovery"): the same for staging and for a log; and a pool
// opened by a call that reads it: its header and its seals.
#![tactic(auto)]

ghost use Rattle.std.specs.Prelude.{◌≡◌, true, false, ◌&&◌, ◌+◌, ◌*◌, ◌%◌, ◌^◌, ◌≤◌, ◌<◌, eqb, leb, ltb, length, IfOk};
ghost use Rattle.rules.specs.Test.{first};
ghost use Rattle.rules.specs.Header.{shape_in};
ghost use Rattle.rules.specs.Seals.{read_tests, unsealed};
ghost use Rattle.layout.specs.Meaning.{answer, shape_of};
ghost use Rattle.layout.specs.Opened.{opened_of};
ghost use Rattle.powercut.specs.Log.{count_in, seal_of, valid as valid_log};
ghost use Rattle.pool_log.specs.Places.{LogAt};
ghost use Rattle.pool_log.specs.Targets.{DataRows, RowsFor, absent_from, all_fit, check_of, read};

use layout::{Pool, Shape};
use refusals::Refusal;

// Places from `low` up to `high`: data rows of one zone of the shape, or none.
#[derive(Clone, Copy)]
struct Rows {
    low: u64,
    high: u64,
}

impl Rows {
    // The data rows of the zone that `t` lies in; none where it lies in no zone.
    fn around(s: Shape, t: u64) -> Rows
        ensures { RowsFor (shape_of s) t result.low result.high }
    {
        let a = t as usize;
        let from = s.zones_at();
        if a < from || s.size() <= a {
            // An empty range: no target lies there.
            return Rows { low: 0, high: 0 };
        }
        let low = s.zone_at((a - from) / s.zone_size());
        Rows {
            low: low as u64,
            high: (low + 64 * s.cells()) as u64,
        }
    }

    // These if `t` lies there, so that targets of one zone cost one division; else those of its zone.
    fn or_around(self, s: Shape, t: u64) -> Rows
        requires { DataRows (shape_of s) self.low self.high }
        ensures { RowsFor (shape_of s) t result.low result.high }
    {
        if self.low <= t && t < self.high {
            return self;
        }
        Rows::around(s, t)
    }

    // Whether `t` is a multiple of 8 there.
    fn has(self, t: u64) -> bool
        ensures { result ≡ (eqb (t % 8) 0 && (leb self.low t && ltb t self.high)) }
    {
        t % 8 == 0 && self.low <= t && t < self.high
    }
}

// Whether none of the `n` entries at `at` has the target `t`.
fn absent(p: &[u8], at: usize, n: usize, t: u64) -> bool
    requires { at + 16 * n ≤ length p.now }
    ensures { result ≡ absent_from t (read p.now at n) }
{
    stage::entry_index(&p[at..], n, t).is_none()
}

// The same where a target that is not marked is already known to be absent.
fn absent_marked(p: &[u8], at: usize, n: usize, t: u64, marked: bool) -> bool
    requires { (at + 16 * n ≤ length p.now) × (marked ≡ false → absent_from t (read p.now at n) ≡ true) }
    ensures { result ≡ absent_from t (read p.now at n) }
{
    !marked || absent(p, at, n, t)
}

// Whether the targets of the `n` entries at `at` fit and none repeats. From the last to the first: each entry passed has set its target's
// mark, so that the entries after one are searched only where its mark is set.
pub fn targets_fit(s: Shape, p: &[u8], at: usize, n: usize) -> bool
    requires { at + 16 * n ≤ length p.now }
    ensures { result ≡ all_fit (shape_of s) (read p.now at n) }
{
    let mut marks = [false; stage::MARKS];
    // An empty range: no target lies there.
    let mut rows = Rows { low: 0, high: 0 };
    for i in (0..n).rev() {
        let t = words::load64(p, at + 16 * i);
        rows = rows.or_around(s, t);
        if !rows.has(t) {
            return false;
        }
        let k = stage::mark_of(t);
        if !absent_marked(p, at + 16 * (i + 1), n - (i + 1), t, marks[k]) {
            return false;
        }
        marks[k] = true;
    }
    true
}

// The check of the `n` entries at `at`.
pub fn check_entries(p: &[u8], at: usize, n: usize) -> u32
    requires { at + 16 * n ≤ length p.now }
    ensures { (result ≡ check_of (read p.now at n)) × (result < 2 ^ 32) }
{
    sums::check(&p[at..at + 16 * n])
}

// The seal of the `n` entries at `at`.
pub fn seal(p: &[u8], at: usize, n: usize) -> u64
    requires { (at + 16 * n ≤ length p.now) × (n ≤ 127) }
    ensures { result ≡ seal_of (read p.now at n) }
{
    (0xA51C * 65536 + n as u64) * 4294967296 + check_entries(p, at, n) as u64
}

// The count in a seal.
pub fn count(w: u64) -> usize
    ensures { (result ≡ count_in w) × (result < 65536) }
{
    (w / 4294967296 % 65536) as usize
}

// Whether the log at `b` is valid.
pub fn valid(pool: &Pool, b: usize) -> bool
    requires { LogAt (shape_of pool.now.shape) b }
    ensures { result ≡ valid_log (shape_of pool.now.shape) pool.now.bytes.now b }
{
    let p = pool.bytes;
    let w = words::load64(p, b);
    let n = count(w);
    if w / 4294967296 / 65536 != 0xA51C {
        return false;
    }
    if n < 1 {
        return false;
    }
    if n > Shape::ENTRIES {
        return false;
    }
    if w % 4294967296 != check_entries(p, b + 16, n) as u64 {
        return false;
    }
    targets_fit(pool.shape, p, b + 16, n)
}

// Whether both seals are zero.
pub fn seals_zero(pool: &Pool) -> bool
    ensures { result ≡ unsealed (shape_of pool.now.shape) pool.now.bytes.now }
{
    let a = pool.shape.log_a();
    let b = pool.shape.log_b();
    words::load64(pool.bytes, a) == 0 && words::load64(pool.bytes, b) == 0
}

// The pool, or the first of refusals 2, 3, 4, 2, 21.
pub fn quiet(bytes: &[u8]) -> Result<Pool, Refusal>
    ensures shape { opened_of result ≡ answer (first (read_tests bytes.now)) (shape_in bytes.now) }
    ensures bytes { IfOk result (λ p. p.bytes.now ≡ bytes.now) }
{
    let pool = Pool::open(bytes)?;
    if !seals_zero(&pool) {
        return Err(Refusal::Sealed);
    }
    Ok(pool)
}
