// Allocate (01, "Transactions"): the lowest zone's lowest free run that is long enough, and the words of the new object touched.
#![tactic(auto)]

ghost use Rattle.std.specs.Prelude.{◌≡◌, true, ◌+◌, ◌-◌, ◌*◌, ◌^◌, ◌≤◌, ◌<◌, length};
ghost use Rattle.rules.specs.Runs.{cells_for, free_head, object_bytes};
ghost use Rattle.rules.specs.Plan.{allocate as allocate_call};
ghost use Rattle.words.specs.Loaded.{Loaded};
ghost use Rattle.stage.specs.Seen.{seen_by};
ghost use Rattle.stage.specs.View.{entries_of};
ghost use Rattle.stage.specs.Touched.{missing, Room, TouchedWords};
ghost use Rattle.layout.specs.Meaning.{shape_of};
ghost use Rattle.answers.specs.Planned.{left_of, planned, Judged};
ghost use Rattle.allocate.specs.Placed.{free_words, Counted, FitsBody, Placed, Unstaged};

use answers::{Answer, Staged};
use layout::{Pool, Shape};
use refusals::Refusal;
use stage::View;
use zones::{Fit, Zones};

// The word of the body at `at`; bytes past its end are 0.
fn body_word(body: &[u8], at: usize) -> u64
    requires { at < 65536 }
    ensures { Loaded 8 body.now at result }
{
    if at + 8 <= body.len() {
        return words::load64(body, at);
    }
    let mut bytes = [0; 8];
    pages::store(&mut bytes, 0, &body[at.min(body.len())..]);
    words::load64(&bytes, 0)
}

// Touches `words` words from `target` on: the body, and zeros after it. They have no entry yet where `fresh`: none is searched for. The
// number of entries then.
fn touch_body(
    staging: &mut [u8],
    count: usize,
    target: u64,
    words: usize,
    body: &[u8],
    fresh: bool,
) -> usize
    requires { Room staging.old count words target × (words ≤ 64) × (target + 8 * words < 2 ^ 64) × (fresh ≡ true → missing words target (entries_of staging.old count) ≡ words) }
    ensures { TouchedWords staging.old count words target body.now staging.new result }
{
    let mut n = count;
    // By number: words past the body's end are touched too, so the body's own words are not all.
    for i in 0..words {
        let word = body_word(body, 8 * i);
        n = stage::touch_known(staging, n, target + 8 * (i as u64), word, fresh);
    }
    n
}

// How many words are touched of the remainder, `left` cells.
fn free_words(left: usize) -> usize
    ensures { (result ≡ free_words left) × (result ≤ 2) }
{
    if left == 0 { 0 } else { 2 }
}

// Touches both head words of a free run of `cells` cells at `at`, if there is one; they have no entry yet where `fresh`. The number of
// entries then.
fn touch_rest(staging: &mut [u8], count: usize, at: u64, cells: usize, fresh: bool) -> usize
    requires { Room staging.old count (free_words cells) at × (cells < 65536) × (at + 8 < 2 ^ 64) × (fresh ≡ true → missing (free_words cells) at (entries_of staging.old count) ≡ free_words cells) }
    ensures { TouchedWords staging.old count (free_words cells) at (free_head cells) staging.new result }
{
    if cells == 0 {
        return count;
    }
    let h = heads::free_head(cells);
    stage::touch_head(staging, count, at, h.first, h.second, fresh)
}

// Which words of a new object have no entry yet, so that none is searched for: both of its head, all others of its cells, and those of the
// head of what is left of its run.
#[derive(Clone, Copy)]
struct Fresh {
    head: bool,
    body: bool,
    rest: bool,
}

// Those of an object with a body of `m` bytes at `at`, with `left` cells of the run behind it; or refusal 27.
fn count_fresh(view: &View, at: u64, left: usize, m: usize) -> Result<Fresh, Refusal>
    requires { (m ≤ 496) × (at + 1024 < 2 ^ 64) }
    ensures { Counted view.now.staging.now view.now.count at left m result }
{
    let cells = heads::cells_for(m);
    let words = 8 * cells - 2;
    let spare = free_words(left);
    let head = view.fresh_words(at, 2);
    let body = view.fresh_words(at + 16, words);
    let rest = view.fresh_words(at + 64 * (cells as u64), spare);
    if Shape::ENTRIES < view.count + (head + (body + rest)) {
        return Err(Refusal::TooMany);
    }
    Ok(Fresh {
        head: head == 2,
        body: body == words,
        rest: rest == spare,
    })
}

// Touches all words of the cells of a new object at `at`, and the head of the `left` cells of the run behind it. The number of entries then.
fn place(
    staging: &mut [u8],
    count: usize,
    at: u64,
    left: usize,
    tag: u32,
    body: &[u8],
    fresh: Fresh,
) -> usize
    requires { Unstaged staging.old count at left (length body.now) fresh × (length body.now ≤ 496) × (at + 1024 < 2 ^ 64) × (left < 65536) × (2032 ≤ length staging.old) }
    ensures { Placed staging.old count at left tag body.now staging.new result }
{
    let cells = heads::cells_for(body.len());
    let h = heads::object_head(tag, body);
    let n = stage::touch_head(staging, count, at, h.first, h.second, fresh.head);
    let n = touch_body(staging, n, at + 16, 8 * cells - 2, body, fresh.body);
    touch_rest(staging, n, at + 64 * (cells as u64), left, fresh.rest)
}

// The free run for a body of `m` bytes, or the first refusal of 6, 23 and 26.
fn free_run(zones: &Zones, m: usize) -> Result<Fit, Refusal>
    ensures { FitsBody (shape_of zones.now.shape) (seen_by zones.now.view) m result }
{
    if m == 0 || Shape::BODY < m {
        return Err(Refusal::Body);
    }
    zones.search(heads::cells_for(m))
}

// Allocates an object with this tag and body: its address, or the first refusal of 6, 23, 26 and 27. The words are counted before any is
// stored.
#[inline(never)] // so that its stack is not held while the record is judged
pub fn allocate(
    pool: &Pool,
    staging: &mut [u8],
    count: usize,
    tag: u32,
    body: &[u8],
) -> Result<Staged, Refusal>
    requires { Judged (shape_of pool.now.shape) pool.now.bytes.now staging.old count }
    ensures { left_of count result staging.new ≡ planned (shape_of pool.now.shape) pool.now.bytes.now staging.old count (allocate_call tag body.now) }
{
    let mut index = [0; stage::INDEX];
    stage::fill_index(&mut index, staging, count);
    let zones = Zones {
        view: View {
            pool: pool.bytes,
            staging,
            index: &index,
            count,
        },
        shape: pool.shape,
    };
    let fit = free_run(&zones, body.len())?;
    let at = (pool.shape.zone_at(fit.zone) + 64 * fit.cell) as u64;
    let left = fit.cells - heads::cells_for(body.len());
    let fresh = count_fresh(&zones.view, at, left, body.len())?;
    let address = fit.zone * pool.shape.cells() + fit.cell;
    let n = place(staging, count, at, left, tag, body, fresh);
    Ok(Staged {
        answer: Answer::Address(address),
        count: n,
    })
}
