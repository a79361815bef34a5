// The staged view, word by word, and words touched: entries of 16 bytes in lent staging memory, target offset and new word.
#![tactic(auto)]

ghost use Rattle.std.specs.Prelude.{◌≡◌, true, ◌++◌, ◌+◌, ◌*◌, ◌%◌, ◌^◌, ◌≤◌, ◌<◌, length};
ghost use Rattle.rules.specs.Staging.{Tidy};
ghost use Rattle.rules.specs.Words.{digits};
ghost use Rattle.stage.specs.Index.{mark_count, mark_of, Blank, Indexed};
ghost use Rattle.stage.specs.Tidy.{Tidy-prop};
ghost use Rattle.stage.specs.View.{entries_of, seen, Asked, Reads, Staged};
ghost use Rattle.stage.specs.Touched.{added, missing, Placed, Room, Touched, TouchedWords};

// The pool as staged.
#[derive(Clone, Copy)]
pub struct View<'a> {
    pub pool: &'a [u8],
    pub staging: &'a [u8],
    pub index: &'a [u8],
    pub count: usize,
    pub ghost room: { 16 * count ≤ length staging.now },
    pub ghost tidy: { Tidy (entries_of staging.now count) } by { Tidy-prop (entries_of staging.now count) },
    pub ghost words: { length pool.now % 8 ≡ 0 },
    pub ghost indexed: { Indexed index.now staging.now count },
}

impl<'a> View<'a> {
    ghost use Rattle.stage.specs.Seen.{seen_by, Alone, Within};

    // The pool alone: no entries.
    pub fn committed(pool: &'a [u8]) -> View<'a>
        requires { length pool.now % 8 ≡ 0 }
        ensures { Alone pool.now result }
    {
        let none = &pool[..0];
        View {
            pool,
            staging: none,
            index: none,
            count: 0,
        }
    }

    // The view for reading the `n` bytes from `from` on: with all entries, or with none where no target lies there.
    pub fn within(&self, from: usize, n: usize) -> View<'a>
        ensures { Within self.now from n result }
    {
        if entries_in(self.staging, self.count, from, n) != 0 {
            return *self;
        }
        // Field by field: a struct with ghost fields takes no base.
        View {
            pool: self.pool,
            staging: self.staging,
            index: self.index,
            count: 0,
        }
    }

    // The place of the entry for `target`, if there is one, by the index: along the chain of its mark, which no range goes over.
    fn find(&self, target: u64) -> Option<usize>
        ensures { Placed self.now.staging.now self.now.count target result }
    {
        if self.count == 0 {
            return None;
        }
        let mut p = usize::from(self.index[mark_of(target)]);
        while 0 < p {
            if words::load64(self.staging, 16 * (p - 1)) == target {
                return Some(p - 1);
            }
            p = usize::from(self.index[MARKS + (p - 1)]);
        }
        None
    }

    // The word at `at`, as staged.
    pub fn word(&self, at: usize) -> u64
        requires { (at % 8 ≡ 0) × (at + 8 ≤ length self.now.pool.now) }
        ensures { Reads (seen_by self.now) at result }
    {
        let slot = self.find(at as u64);
        word_in_slot(self.pool, self.staging, self.count, at, slot)
    }

    // How many of the `n` words from `from` on have no entry yet.
    pub fn fresh_words(&self, from: u64, n: usize) -> usize
        requires { from + 8 * n < 2 ^ 64 }
        ensures { (result ≡ missing n from (entries_of self.now.staging.now self.now.count)) × (result ≤ n) }
    {
        (0..n)
            .filter(|&i| self.find(from + 8 * (i as u64)).is_none())
            .count()
    }
}

// The entries to ask for the `n` bytes from `from` on: all, or none where no target lies there. A number of entries, of which 0 is one; it stands beside
// `View::within`, since it asks less than a view does.
pub fn entries_in(staging: &[u8], count: usize, from: usize, n: usize) -> usize
    requires { 16 * count ≤ length staging.now }
    ensures { Asked staging.now count from n result }
{
    let asked = staging[..16 * count].chunks_exact(16).any(|e| {
        let t = words::load64(e, 0) as usize;
        from <= t && t - from < n
    });
    if asked { count } else { 0 }
}

// The functions below store entries, or are called between such stores: a View would hold the staging memory meanwhile, so they take it with the
// number of its entries.

// The place of the entry for `target`, if there is one.
pub fn entry_index(staging: &[u8], count: usize, target: u64) -> Option<usize>
    requires { 16 * count ≤ length staging.now }
    ensures { Placed staging.now count target result }
{
    staging[..16 * count]
        .chunks_exact(16)
        .position(|e| words::load64(e, 0) == target)
}

// The marks that targets share.
pub const MARKS: usize = 256;

// The bytes of an index. Each is an entry's number plus one, 0 for none: an Option<u8> takes two bytes, and this memory is fixed.
pub const INDEX: usize = 384;

// The mark of the target `t`, by Fibonacci hashing of its word's number: words in a row and heads at even distances seldom share one.
pub fn mark_of(t: u64) -> usize
    ensures { (result ≡ mark_of t) × (result < mark_count) }
{
    t as usize / 8 % 65536 * 40503 / 256 % MARKS
}

// Fills an index of zeros with the entries: one pass, so that each of them is found by its target's mark. It makes no View too: that would ask by
// clauses what a View's fields say, for three callers.
pub fn fill_index(index: &mut [u8], staging: &[u8], count: usize)
    requires { Blank index.old × (count ≤ 127) × (16 * count ≤ length staging.now) }
    ensures { Indexed index.new staging.now count }
{
    for (i, e) in staging[..16 * count].chunks_exact(16).enumerate() {
        let k = mark_of(words::load64(e, 0));
        index[MARKS + i] = index[k];
        index[k] = (i + 1) as u8;
    }
}

// The word at `at`, as staged, whose entry stands at `slot`, if it has one.
fn word_in_slot(pool: &[u8], staging: &[u8], count: usize, at: usize, slot: Option<usize>) -> u64
    requires { Staged pool.now staging.now count × (at % 8 ≡ 0) × (at + 8 ≤ length pool.now) × Placed staging.now count at slot }
    ensures { Reads (seen pool.now staging.now count) at result }
{
    match slot {
        Some(i) => words::load64(staging, 16 * i + 8),
        None => words::load64(pool, at),
    }
}

// The word at `at`, as staged; it has no entry where `fresh`. A flag, here and below, and no closure: a caller that counted the words without an entry
// knows that none is to be searched for, and the same word is stored.
pub fn known_word(pool: &[u8], staging: &[u8], count: usize, at: usize, fresh: bool) -> u64
    requires { Staged pool.now staging.now count × (at % 8 ≡ 0) × (at + 8 ≤ length pool.now) × (fresh ≡ true → added at (entries_of staging.now count) ≡ 1) }
    ensures { Reads (seen pool.now staging.now count) at result }
{
    if fresh {
        return words::load64(pool, at);
    }
    let slot = entry_index(staging, count, at as u64);
    word_in_slot(pool, staging, count, at, slot)
}

// Adds an entry for the word at `target`, which has none; the number of entries then.
fn append(staging: &mut [u8], count: usize, target: u64, word: u64) -> usize
    requires { (16 * (count + 1) ≤ length staging.old) × (added target (entries_of staging.old count) ≡ 1) }
    ensures { Touched staging.old count target word staging.new result }
{
    words::store64(staging, 16 * count, target);
    words::store64(staging, 16 * count + 8, word);
    count + 1
}

// Touches the word at `target`; the number of entries then. Room is of memory, count and target together, for this call.
pub fn touch(staging: &mut [u8], count: usize, target: u64, word: u64) -> usize
    requires { Room staging.old count 1 target }
    ensures { Touched staging.old count target word staging.new result }
{
    if let Some(i) = entry_index(staging, count, target) {
        words::store64(staging, 16 * i + 8, word);
        return count;
    }
    append(staging, count, target, word)
}

// Touches the word at `target`, which has no entry yet where `fresh`; the number of entries then.
pub fn touch_known(staging: &mut [u8], count: usize, target: u64, word: u64, fresh: bool) -> usize
    requires { Room staging.old count 1 target × (fresh ≡ true → added target (entries_of staging.old count) ≡ 1) }
    ensures { Touched staging.old count target word staging.new result }
{
    if fresh {
        return append(staging, count, target, word);
    }
    touch(staging, count, target, word)
}

// Touches the two words of a head from `target` on, which have no entry yet where `fresh`; the number of entries then.
pub fn touch_head(
    staging: &mut [u8],
    count: usize,
    target: u64,
    first: u64,
    second: u64,
    fresh: bool,
) -> usize
    requires { Room staging.old count 2 target × (target + 8 < 2 ^ 64) × (fresh ≡ true → missing 2 target (entries_of staging.old count) ≡ 2) }
    ensures { TouchedWords staging.old count 2 target (digits 8 first ++ digits 8 second) staging.new result }
{
    let n = touch_known(staging, count, target, first, fresh);
    touch_known(staging, n, target + 8, second, fresh)
}
