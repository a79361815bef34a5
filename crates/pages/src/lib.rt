// Parts of a page written: zeros, bytes given, a copy, and a header (01, "The pool's bytes").
#![tactic(auto)]

ghost use Rattle.std.specs.Prelude.{◌≡◌, ◌+◌, ◌≤◌, ◌<◌, length, take, drop, replicate};
ghost use Rattle.std.proofs.lemmas.List.Edits.{sets};
ghost use Rattle.rules.specs.Shape.{shape};
ghost use Rattle.rules.specs.Header.{header_bytes, header_front};
ghost use Rattle.pages.specs.Written.{Apart, HeaderFits};

// Zeros in all of `s`.
pub fn zero(s: &mut [u8])
    ensures { s.new ≡ replicate (length s.old) 0 }
{
    s.fill(0);
}

// The bytes `part`, stored from `at` on.
pub fn store(s: &mut [u8], at: usize, part: &[u8])
    requires { at + length part.now ≤ length s.old }
    ensures { s.new ≡ sets s.old at part.now }
{
    s[at..at + part.len()].copy_from_slice(part);
}

// The `n` bytes from `from` on, stored from `to` on.
pub fn copy(s: &mut [u8], from: usize, to: usize, n: usize)
    requires { Apart (length s.old) from to n }
    ensures { s.new ≡ sets s.old to (take n (drop from s.old)) }
{
    s.copy_within(from..from + n, to);
}

// A header's bytes 0 to 15: the letters; R, C, Z and version 1, a byte each; the pool id. Numbers one by one: layout::Shape is of a layer above.
fn put_front(s: &mut [u8], at: usize, rows: usize, cols: usize, zones: usize, id: u64)
    requires { HeaderFits (length s.old) at rows cols zones }
    ensures { s.new ≡ sets s.old at (header_front (shape rows cols zones) id) }
{
    store(s, at, b"SGPL");
    store(s, at + 4, &[rows as u8, cols as u8, zones as u8, 1]);
    words::store64(s, at + 8, id);
}

// A header's bytes 0 to 19: those, and their check. On a page of zeros this is the whole header.
pub fn put_header(s: &mut [u8], at: usize, rows: usize, cols: usize, zones: usize, id: u64)
    requires { HeaderFits (length s.old) at rows cols zones }
    ensures { s.new ≡ sets s.old at (take 20 (header_bytes (shape rows cols zones) id)) }
{
    put_front(s, at, rows, cols, zones, id);
    let check = sums::check(&s[at..at + 16]);
    words::store32(s, at + 16, u64::from(check));
}
