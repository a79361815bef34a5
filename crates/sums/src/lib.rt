// The check (01, "The pool's bytes"): its two sums over bytes that come in parts, and brought up to date when bytes change.
#![tactic(auto)]

ghost use Rattle.std.specs.Prelude.{◌≡◌, ◌+◌, ◌*◌, ◌≤◌, ◌<◌, length};
ghost use Rattle.rules.specs.Check.{check as check_of, modulus, moved as moved_sum, updated as updated_check};
ghost use Rattle.sums.specs.Fed.{Below, updated_range};

// What each sum is kept below.
const MODULUS: u32 = 65521;

// The bytes of a block: in so many neither sum outgrows 32 bits.
const BLOCK: usize = 2048;

// The two sums over the bytes so far.
#[derive(Clone, Copy, Debug, PartialEq, Eq)]
pub struct Sums {
    pub low: u32,
    pub high: u32,
    pub ghost below: { Below low high },
}

impl Sums {
    ghost use Rattle.sums.specs.Fed.{Fed, Started};

    // The low sum starts at 1, the high one at 0.
    pub fn new() -> Sums
        ensures { Started result.low result.high }
    {
        Sums { low: 1, high: 0 }
    }

    // The sums after the bytes of `block`: one remainder of each at its end.
    fn add(self, block: &[u8]) -> Sums
        requires { length block.now ≤ BLOCK }
        ensures { Fed self.low self.high block.now result.low result.high }
    {
        let mut low = self.low;
        let mut high = self.high;
        for &b in block {
            low += u32::from(b);
            high += low;
        }
        Sums {
            low: low % MODULUS,
            high: high % MODULUS,
        }
    }

    // The sums after the bytes of `part`.
    pub fn feed(self, part: &[u8]) -> Sums
        ensures { Fed self.low self.high part.now result.low result.high }
    {
        let mut sums = self;
        for block in part.chunks(BLOCK) {
            sums = sums.add(block);
        }
        sums
    }

    // The check: high × 65536 + low.
    pub fn value(self) -> u32
        ensures { result ≡ self.high * 65536 + self.low }
    {
        self.high * 65536 + self.low
    }
}

// The check of the bytes of `s`.
#[tactic(auto, unfolding(rules::specs::Check::check))]
pub fn check(s: &[u8]) -> u32
    ensures { result ≡ check_of s.now }
{
    Sums::new().feed(s).value()
}

// A sum, moved by n × (v − u), which may fall below zero before it is reduced.
fn moved(sum: u32, n: u16, u: u8, v: u8) -> u32
    requires { sum < 65536 }
    ensures { (result ≡ moved_sum sum n u v) × (result < modulus) }
{
    let change = (i64::from(v) - i64::from(u)) * i64::from(n);
    (sum + change.rem_euclid(i64::from(MODULUS)) as u32) % MODULUS
}

// The check after one byte became `v`, where `n` bytes, itself among them, stand from it on.
#[tactic(auto, unfolding(rules::specs::Check::updated))]
pub fn updated(check: u32, n: u16, u: u8, v: u8) -> u32
    ensures { result ≡ updated_check check n u v }
{
    let high = moved(check / 65536, n, u, v);
    let low = moved(check % 65536, 1, u, v);
    high * 65536 + low
}

// The check after the bytes `old` became `new`, where `n` bytes, those among them, stand from the first of them on.
#[tactic(auto, unfolding(crate::specs::Fed::updated_range))]
pub fn updated_range(check: u32, n: u16, old: &[u8], new: &[u8]) -> u32
    requires { (length old.now ≤ n) × (length new.now ≡ length old.now) }
    ensures { result ≡ updated_range check n old.now new.now }
{
    let mut sum = check;
    let mut left = n;
    for (&u, &v) in old.iter().zip(new) {
        sum = updated(sum, left, u, v);
        left -= 1;
    }
    sum
}
