// The object at a cell of a zone (01, refusals 24 and 25), as staged.
#![tactic(auto)]

ghost use Rattle.std.specs.Prelude.{◌≡◌, true, ◌+◌, ◌-◌, ◌*◌, ◌%◌, ◌≤◌, ◌<◌, length, drop};
ghost use Rattle.rules.specs.Words.{all_zero};
ghost use Rattle.rules.specs.Shape.{body_limit};
ghost use Rattle.rules.specs.Runs.{cells_for, good_in, head_cells, object_ok};
ghost use Rattle.rules.specs.Search.{run_at};
ghost use Rattle.sums.specs.Fed.{Fed};
ghost use Rattle.stage.specs.Seen.{seen_by};
ghost use Rattle.stage.specs.View.{part};
ghost use Rattle.heads.specs.HeadWords.{head_of};
ghost use Rattle.runs.specs.Rest.{walk_of};
ghost use Rattle.runs.specs.Spotted.{Spotted};
ghost use Rattle.objects.specs.Named.{Names};

use heads::Head;
use refusals::Refusal;
use runs::{Spot, Zone};
use stage::View;
use sums::Sums;

// An object: its cells, its body's length and its tag.
#[derive(Clone, Copy)]
pub struct Object {
    pub cells: usize,
    pub length: usize,
    pub tag: u32,
}

// The sums after the `n` bytes from `from` on, as staged. By the word's number: each word is asked of the view; no slice holds the words as staged.
pub fn feed_part(view: &View, s: Sums, from: usize, n: usize) -> Sums
    requires { (from % 8 ≡ 0) × (from + n ≤ length view.now.pool.now) }
    ensures { Fed s.low s.high (part n from (seen_by view.now)) result.low result.high }
{
    // Without entries no word is searched for: speed.
    if view.count == 0 {
        return s.feed(&view.pool[from..from + n]);
    }
    let words = n / 8;
    let mut sums = s;
    for i in 0..words {
        sums = heads::feed_word(sums, view.word(from + 8 * i), 8);
    }
    let left = n % 8;
    if left == 0 {
        return sums;
    }
    heads::feed_word(sums, view.word(from + 8 * words), left)
}

// Whether the bytes of the run at `at` behind its body of `m` bytes are zero, as staged: the rest of the word in which the body ends, which is
// nothing where it fills the word (so two shifts: none is by 64), then whole words. No way out before the end. By the word's number, as above.
fn zeros_behind(view: &View, at: usize, m: usize) -> bool
    requires { (at % 8 ≡ 0) × (1 ≤ m) × (m ≤ body_limit) × (at + 64 * cells_for m ≤ length view.now.pool.now) }
    ensures { result ≡ all_zero (part (64 * cells_for m - (16 + m)) (at + 16 + m) (seen_by view.now)) }
{
    let end = 8 * heads::cells_for(m);
    let last = m - 1;
    let word = 2 + last / 8;
    let mut bits = view.word(at + 8 * word) >> (8 * (last % 8)) >> 8;
    for i in word + 1..end {
        bits |= view.word(at + 8 * i);
    }
    bits == 0
}

// Whether the object with the head `h` at `at` is good: its check is right, and the bytes behind its body are zero.
pub fn intact(view: &View, h: Head, at: usize) -> bool
    requires { (at % 8 ≡ 0) × (at + 64 * head_cells (head_of h.first h.second) ≤ length view.now.pool.now) × (object_ok (head_of h.first h.second) ≡ true) }
    ensures { result ≡ good_in (head_of h.first h.second) (drop (at + 16) (seen_by view.now)) }
{
    let m = h.body();
    if !zeros_behind(view, at, m) {
        return false;
    }
    let s = feed_part(view, h.sums(), at + 16, m);
    h.check() == s.value()
}

// The object that begins at cell `c` of a zone, located there: none does, or it is damaged, or it is good.
pub fn in_zone(zone: &Zone, c: usize, spot: Spot) -> Result<Object, Refusal>
    requires { (c < zone.now.cells) × Spotted (seen_by zone.now.view) zone.now.from zone.now.cells c spot.prior spot.run }
    ensures { Names (seen_by zone.now.view) (zone.now.from + 64 * c) (run_at c 0 (walk_of (seen_by zone.now.view) zone.now.from zone.now.cells).runs) result }
{
    let Some(run) = spot.run else {
        return Err(Refusal::NoObject);
    };
    if run.free {
        return Err(Refusal::NoObject);
    }
    let at = zone.place_of(c);
    let head = zone.head(c);
    if !intact(&zone.view, head, at) {
        return Err(Refusal::Damaged);
    }
    Ok(Object {
        cells: head.cells(),
        length: head.body(),
        tag: head.tag(),
    })
}
