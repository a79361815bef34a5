// A header page (01, "The pool's bytes"), judged: letters, ranges, version, pool id, check, and zeros to the page's end. A page is a slice, whose 256 bytes
// a clause asks for: it is a part of a pool, and each caller would have to make an array of it.
#![tactic(auto)]

ghost use Rattle.std.specs.Prelude.{◌≡◌, ◌-◌, ◌<◌, eqb, length, take, drop, get_or, replicate};
ghost use Rattle.rules.specs.Words.{field};
ghost use Rattle.rules.specs.Check.{check as check_of};
ghost use Rattle.rules.specs.Shape.{page_size, shape};
ghost use Rattle.rules.specs.Header.{header_id, header_ok, header_shape, in_range, letters, same, within};

// The byte at `at`, as a number of rows, columns or zones is held; words::load8 gives a u64.
pub fn byte(h: &[u8], at: usize) -> usize
    requires { at < length h.now }
    ensures { (result ≡ get_or h.now at 0) × (result < 256) }
{
    usize::from(h[at])
}

// The pool id.
#[tactic(auto, unfolding(rules::specs::Header::header_id))]
pub fn id(h: &[u8]) -> u64
    requires { length h.now ≡ page_size }
    ensures { result ≡ header_id h.now }
{
    words::load64(h, 8)
}

// Whether R, C and Z are each in its range.
#[tactic(auto, unfolding(rules::specs::Header::in_range, rules::specs::Header::within))]
pub fn in_range(rows: usize, cols: usize, zones: usize) -> bool
    ensures { result ≡ in_range (shape rows cols zones) }
{
    (1..=15).contains(&rows) && (1..=64).contains(&cols) && (1..=16).contains(&zones)
}

// Whether the header's R, C and Z are.
#[tactic(auto, unfolding(rules::specs::Header::header_shape))]
fn shape_ok(h: &[u8]) -> bool
    requires { length h.now ≡ page_size }
    ensures { result ≡ in_range (header_shape h.now) }
{
    in_range(byte(h, 4), byte(h, 5), byte(h, 6))
}

// Whether the letters stand at the front.
pub fn letters_ok(h: &[u8]) -> bool
    requires { length h.now ≡ page_size }
    ensures { result ≡ same (take 4 h.now) letters }
{
    check::same(&h[..4], b"SGPL")
}

// Whether the check over bytes 0 to 15 is right.
fn check_ok(h: &[u8]) -> bool
    requires { length h.now ≡ page_size }
    ensures { result ≡ eqb (field 4 h.now 16) (check_of (take 16 h.now)) }
{
    words::load32(h, 16) == u64::from(sums::check(&h[..16]))
}

// Whether the rest is zero: 4 bytes, then words to the page's end, which is told, and no way out before it, so that the compiler takes many bytes at once.
fn rest_ok(h: &[u8]) -> bool
    requires { length h.now ≡ page_size }
    ensures { result ≡ same (drop 20 h.now) (replicate (page_size - 20) 0) }
{
    let mut bits = words::load32(h, 20);
    for word in h[24..256].chunks_exact(8) {
        bits |= words::load64(word, 0);
    }
    bits == 0
}

// Whether a header page and its copy hold the same bytes; likewise no way out before the end.
#[tactic(auto, using(crate::proofs::Bits::same_more), unfolding(rules::specs::Header::same))]
pub fn pages_same(a: &[u8], b: &[u8]) -> bool
    requires { (length a.now ≡ page_size) × (length b.now ≡ page_size) }
    ensures { result ≡ same a.now b.now }
{
    let mut bits = 0;
    for (&x, &y) in a.iter().zip(b) {
        bits |= x ^ y;
    }
    bits == 0
}

// Whether the header page is valid.
#[tactic(auto, unfolding(rules::specs::Header::header_ok))]
pub fn valid(h: &[u8]) -> bool
    requires { length h.now ≡ page_size }
    ensures { result ≡ header_ok h.now }
{
    letters_ok(h) && shape_ok(h) && byte(h, 7) == 1 && id(h) != 0 && check_ok(h) && rest_ok(h)
}
