// A run's head (01, "Cells and runs") as two words: read as staged, judged, and made.
//
//   first    kind 2 bytes, run length in cells 2, body length 4        second    check 4, tag 4
#![tactic(auto)]

ghost use Rattle.std.specs.Prelude.{◌≡◌, [], ◌+◌, ◌*◌, ◌/◌, ◌%◌, ◌≤◌, ◌<◌, length};
ghost use Rattle.std.proofs.lemmas.List.Edits.{sets};
ghost use Rattle.rules.specs.Shape.{head_size};
ghost use Rattle.rules.specs.Words.{digits};
ghost use Rattle.rules.specs.Runs.{cells_for, free_head, free_ok, head_bytes, head_cells, head_check, head_length, head_tag, object_kind, object_ok};
ghost use Rattle.sums.specs.Fed.{Fed};
ghost use Rattle.stage.specs.Seen.{seen_by};
ghost use Rattle.stage.specs.View.{part};
ghost use Rattle.heads.specs.HeadWords.{covered_by, head_of, Checked};

use stage::View;
use sums::Sums;

#[derive(Clone, Copy)]
pub struct Head {
    pub first: u64,
    pub second: u64,
}

// The sums after the `n` low bytes of `word`.
pub fn feed_word(s: Sums, word: u64, n: usize) -> Sums
    requires { n ≤ 8 }
    ensures { Fed s.low s.high (digits n word) result.low result.high }
{
    s.feed(&word.to_le_bytes()[..n])
}

// The fewest cells that hold the head and a body of `m` bytes.
pub fn cells_for(m: usize) -> usize
    requires { m ≤ 496 }
    ensures { (result ≡ cells_for m) × (result ≤ 8) }
{
    (16 + m + 63) / 64
}

impl Head {
    // The run's cells.
    pub fn cells(self) -> usize
        ensures { (result ≡ head_cells (head_of self.first self.second)) × (result < 65536) }
    {
        (self.first / 65536 % 65536) as usize
    }

    // The body's length.
    pub fn body(self) -> usize
        ensures { (result ≡ head_length (head_of self.first self.second)) × (result < 4294967296) }
    {
        (self.first / 4294967296) as usize
    }

    pub fn check(self) -> u32
        ensures { result ≡ head_check (head_of self.first self.second) }
    {
        (self.second % 4294967296) as u32
    }

    pub fn tag(self) -> u32
        ensures { result ≡ head_tag (head_of self.first self.second) }
    {
        (self.second / 4294967296) as u32
    }

    // The sums after the 12 bytes of the head that its check covers.
    pub fn sums(self) -> Sums
        ensures { Fed 1 0 (covered_by self.first (self.second / 4294967296) []) result.low result.high }
    {
        let s = feed_word(Sums::new(), self.first, 8);
        feed_word(s, self.second / 4294967296, 4)
    }

    // A right head of a free run.
    pub fn free_ok(self) -> bool
        ensures { result ≡ free_ok (head_of self.first self.second) }
    {
        let n = self.cells();
        n != 0
            && self.first == 1 + 65536 * (n as u64)
            && self.second == checked(self.first, 0, b"").second
    }

    // A right head of an object, but for its check.
    pub fn object_ok(self) -> bool
        ensures { result ≡ object_ok (head_of self.first self.second) }
    {
        let m = self.body();
        (1..=496).contains(&m) && self.first == object_first(m)
    }
}

// The first word of an object with a body of `m` bytes.
fn object_first(m: usize) -> u64
    requires { m ≤ 496 }
    ensures { result ≡ 2 + 65536 * cells_for m + 4294967296 * m }
{
    2 + 65536 * (cells_for(m) as u64) + 4294967296 * (m as u64)
}

// The head with this first word and tag, and with the right check over a body.
fn checked(first: u64, tag: u32, body: &[u8]) -> Head
    ensures { Checked first tag body.now result.first result.second }
{
    let upper = 4294967296 * u64::from(tag);
    let h = Head {
        first,
        second: upper,
    };
    let s = h.sums().feed(body);
    Head {
        first,
        second: upper + u64::from(s.value()),
    }
}

// The head of a free run of `n` cells.
pub fn free_head(n: usize) -> Head
    requires { n < 65536 }
    ensures { head_of result.first result.second ≡ free_head n }
{
    checked(1 + 65536 * (n as u64), 0, b"")
}

// The head of a new object.
pub fn object_head(tag: u32, body: &[u8]) -> Head
    requires { length body.now ≤ 496 }
    ensures { head_of result.first result.second ≡ head_bytes object_kind (cells_for (length body.now)) (length body.now) tag body.now }
{
    checked(object_first(body.len()), tag, body)
}

// A head, stored at `at`.
pub fn put_head(s: &mut [u8], at: usize, head: Head)
    requires { at + head_size ≤ length s.old }
    ensures { s.new ≡ sets s.old at (head_of head.first head.second) }
{
    words::store64(s, at, head.first);
    words::store64(s, at + 8, head.second);
}

// The head at `at`, as staged.
pub fn read_head(view: &View, at: usize) -> Head
    requires { (at % 8 ≡ 0) × (at + 16 ≤ length view.now.pool.now) }
    ensures { head_of result.first result.second ≡ part 16 at (seen_by view.now) }
{
    // Without entries no word is searched for: speed.
    if view.count == 0 {
        let first = stage::known_word(view.pool, view.staging, 0, at, true);
        let second = stage::known_word(view.pool, view.staging, 0, at + 8, true);
        return Head { first, second };
    }
    let first = view.word(at);
    let second = view.word(at + 8);
    Head { first, second }
}
