// Write (01, "Transactions"): new bytes for a range of an object's body, staged with the check that the object has then.
#![tactic(auto)]

ghost use Rattle.std.specs.Prelude.{◌≡◌, not, ◌&&◌, ◌+◌, ◌≤◌, leb, length};
ghost use Rattle.rules.specs.Words.{Bytes};
ghost use Rattle.rules.specs.Shape.{staging_size};
ghost use Rattle.rules.specs.Plan.{write as write_call};
ghost use Rattle.layout.specs.Meaning.{shape_of};
ghost use Rattle.stage.specs.Seen.{seen_by};
ghost use Rattle.stage.specs.View.{seen, Staged as StagedIn};
ghost use Rattle.answers.specs.Planned.{left_of, planned, Judged};
ghost use Rattle.write.specs.Writing.{Changes, Checked, Counted, Unstaged, Written};

use answers::{Answer, Staged};
use layout::{Pool, Shape};
use refusals::Refusal;
use stage::View;
use zones::Zones;

// Whether a range of `n` bytes from `at` on is empty or goes past a body of `m` bytes.
fn outside(at: usize, n: usize, m: usize) -> bool
    ensures { result ≡ not (leb 1 n && leb (at + n) m) }
{
    n == 0 || m < n || m - n < at
}

// New bytes for a range of a body: where the object's head lies, its body's length, and where in it the bytes go.
#[derive(Clone, Copy)]
struct Change<'a> {
    head: usize,
    length: usize,
    at: usize,
    bytes: &'a [u8],
}

// Bytes 8 to 15 of the head, once the body has the new bytes: the new check, and the tag. Of the bytes that the check covers, 12 and those of
// the body, the range's first has the place 12 + at.
fn check_word(view: &View, c: &Change) -> u64
    requires { Changes (seen_by view.now) c.now × Bytes (seen_by view.now) × Bytes c.now.bytes.now }
    ensures { Checked (seen_by view.now) c.now result }
{
    let head = heads::read_head(view, c.head);
    let left = (12 + c.length) - (12 + c.at);
    let from = c.head + (16 + c.at);
    let check = overwrite::new_check(view, head.check(), from, left as u16, c.bytes);
    4294967296 * (head.second / 4294967296) + u64::from(check)
}

// Which words of a write have no entry yet, so that none is searched for: the one that holds the check, and all those that hold the range.
#[derive(Clone, Copy)]
struct Fresh {
    check: bool,
    range: bool,
}

// Those of this change; or refusal 27.
fn count_fresh(view: &View, c: &Change) -> Result<Fresh, Refusal>
    requires { Changes (seen_by view.now) c.now }
    ensures { Counted view.now.staging.now view.now.count c.now result }
{
    let from = c.head + (16 + c.at);
    let words = (from % 8 + c.bytes.len() + 7) / 8;
    let check = view.fresh_words((c.head + 8) as u64, 1);
    let range = view.fresh_words((from / 8 * 8) as u64, words);
    if Shape::ENTRIES < view.count + (check + range) {
        return Err(Refusal::TooMany);
    }
    Ok(Fresh {
        check: check == 1,
        range: range == words,
    })
}

// Touches the word that holds the check, which becomes `word`, then the words that hold the range; the number of entries then.
fn touch_write(
    pool: &[u8],
    staging: &mut [u8],
    count: usize,
    c: &Change,
    word: u64,
    fresh: Fresh,
) -> usize
    requires { StagedIn pool.now staging.old count × Changes (seen pool.now staging.old count) c.now × Unstaged staging.old count c.now fresh × Checked (seen pool.now staging.old count) c.now word × (staging_size ≤ length staging.old) }
    ensures { Written (seen pool.now staging.old count) staging.old count c.now staging.new result }
{
    let n = stage::touch_known(staging, count, (c.head + 8) as u64, word, fresh.check);
    overwrite::touch_range(pool, staging, n, c.head + (16 + c.at), c.bytes, fresh.range)
}

// Stages `bytes` for the range from byte `at` of the body of the object at the cell address `a` on; or the first refusal of 5, 23, 24, 25, 7
// and 27. The words are counted before any is stored. `Judged`, here as in `allocate` and `free`, is of pool, staging memory and count together: the memory is
// stored into.
#[inline(never)] // so that its stack is not held while the record is judged
pub fn write(
    pool: &Pool,
    staging: &mut [u8],
    count: usize,
    a: usize,
    at: usize,
    bytes: &[u8],
) -> Result<Staged, Refusal>
    requires { Judged (shape_of pool.now.shape) pool.now.bytes.now staging.old count }
    ensures { left_of count result staging.new ≡ planned (shape_of pool.now.shape) pool.now.bytes.now staging.old count (write_call a at bytes.now) }
{
    let mut index = [0; stage::INDEX];
    stage::fill_index(&mut index, staging, count);
    let zones = Zones {
        view: View {
            pool: pool.bytes,
            staging,
            index: &index,
            count,
        },
        shape: pool.shape,
    };
    let object = zones.object_at(a)?;
    if outside(at, bytes.len(), object.length) {
        return Err(Refusal::Range);
    }
    let change = Change {
        head: zones::head_at(pool.shape, a),
        length: object.length,
        at,
        bytes,
    };
    let fresh = count_fresh(&zones.view, &change)?;
    let word = check_word(&zones.view, &change);
    let n = touch_write(pool.bytes, staging, count, &change, word, fresh);
    Ok(Staged {
        answer: Answer::Taken,
        count: n,
    })
}
