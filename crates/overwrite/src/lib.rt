// A range of bytes laid over the staged view (01, "Transactions": write): the check brought up to date by signed differences, and the
// words that hold the range touched.
#![tactic(auto)]

ghost use Rattle.std.specs.Prelude.{◌≡◌, true, ◌+◌, ◌≤◌, length, drop};
ghost use Rattle.std.proofs.lemmas.List.Edits.{sets};
ghost use Rattle.rules.specs.Words.{digits, word as word_of};
ghost use Rattle.sums.specs.Fed.{updated_range};
ghost use Rattle.stage.specs.Seen.{seen_by};
ghost use Rattle.stage.specs.View.{part, Staged};
ghost use Rattle.overwrite.specs.Range.{RangeFresh, RangeRoom, RangeTouched};

use stage::View;

// The check after the bytes of `old` from `skip` on became `new`, as far as both go; `left` bytes stand from the first of them on.
fn part_check(check: u32, left: u16, old: &[u8], skip: usize, new: &[u8]) -> u32
    requires { (skip ≤ length old.now) × (length new.now ≤ left) }
    ensures { result ≡ updated_range check left (drop skip old.now) new.now }
{
    let n = (old.len() - skip).min(new.len());
    sums::updated_range(check, left, &old[skip..skip + n], &new[..n])
}

// The check after the bytes of `word` from `skip` on became `new`, as far as both go.
fn word_check(check: u32, left: u16, word: u64, skip: usize, new: &[u8]) -> u32
    requires { (skip ≤ 8) × (length new.now ≤ left) }
    ensures { result ≡ updated_range check left (drop skip (digits 8 word)) new.now }
{
    part_check(check, left, &word.to_le_bytes(), skip, new)
}

// The check after the staged bytes from `at` on became `bytes`, where `left` bytes stand from the first of them on. A step of the loop goes to
// the next word, and the first word may hold fewer of the bytes: chunks of one length are no plainer.
pub fn new_check(view: &View, check: u32, at: usize, left: u16, bytes: &[u8]) -> u32
    requires { (at + length bytes.now ≤ length view.now.pool.now) × (length bytes.now ≤ left) }
    ensures { result ≡ updated_range check left (part (length bytes.now) at (seen_by view.now)) bytes.now }
{
    let mut sum = check;
    let mut i = 0;
    while i < bytes.len() {
        let skip = (at + i) % 8;
        let word = view.word((at + i) / 8 * 8);
        sum = word_check(sum, left - (i as u16), word, skip, &bytes[i..]);
        i += 8 - skip;
    }
    sum
}

// The bytes `new` laid over `old` from `skip` on, as far as it goes.
fn lay_part(old: &mut [u8], skip: usize, new: &[u8])
    requires { skip ≤ length old.old }
    ensures { old.new ≡ sets old.old skip new.now }
{
    let n = (old.len() - skip).min(new.len());
    pages::store(old, skip, &new[..n]);
}

// `word` with the bytes `new` laid over it from `skip` on, as far as it goes.
fn lay_word(word: u64, skip: usize, new: &[u8]) -> u64
    requires { skip ≤ 8 }
    ensures { result ≡ word_of (sets (digits 8 word) skip new.now) 0 }
{
    let mut bytes = word.to_le_bytes();
    lay_part(&mut bytes, skip, new);
    u64::from_le_bytes(bytes)
}

// Touches the words that hold the range from `at` on, with `bytes` laid over it; they have no entry yet where `fresh`, so that none is searched
// for. The number of entries then. The loop steps as that of `new_check`.
pub fn touch_range(
    pool: &[u8],
    staging: &mut [u8],
    count: usize,
    at: usize,
    bytes: &[u8],
    fresh: bool,
) -> usize
    requires { Staged pool.now staging.old count × RangeRoom pool.now staging.old count at (length bytes.now) × (fresh ≡ true → RangeFresh staging.old count at (length bytes.now)) }
    ensures { RangeTouched pool.now staging.old count at bytes.now staging.new result }
{
    let mut n = count;
    let mut done = 0;
    while done < bytes.len() {
        let skip = (at + done) % 8;
        let from = (at + done) / 8 * 8;
        let word = lay_word(
            stage::known_word(pool, staging, n, from, fresh),
            skip,
            &bytes[done..],
        );
        n = stage::touch_known(staging, n, from as u64, word, fresh);
        done += 8 - skip;
    }
    n
}
