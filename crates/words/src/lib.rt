// Fields of a byte slice, of 1, 2, 4 and 8 bytes, the lowest byte first: read, and stored.
#![tactic(auto)]

ghost use Rattle.std.specs.Prelude.{◌≡◌, ◌+◌, ◌≤◌, ◌<◌, length};
ghost use Rattle.std.proofs.lemmas.List.Edits.{sets};
ghost use Rattle.rules.specs.Words.{digits, put};
ghost use Rattle.words.specs.Loaded.{Loaded};

// The byte at `at`.
pub fn load8(s: &[u8], at: usize) -> u64
    requires { at < length s.now }
    ensures { Loaded 1 s.now at result }
{
    u64::from(s[at])
}

// The wider ones stand on halves. u64::from_le_bytes was tried and missed the speed: 122 entries were judged in 335 ns at best, in place of 263.

// The 2 bytes from `at` on.
pub fn load16(s: &[u8], at: usize) -> u64
    requires { at + 2 ≤ length s.now }
    ensures { Loaded 2 s.now at result }
{
    load8(s, at) + 256 * load8(s, at + 1)
}

// The 4 bytes from `at` on.
pub fn load32(s: &[u8], at: usize) -> u64
    requires { at + 4 ≤ length s.now }
    ensures { Loaded 4 s.now at result }
{
    load16(s, at) + 65536 * load16(s, at + 2)
}

// The word at `at`: 8 bytes.
pub fn load64(s: &[u8], at: usize) -> u64
    requires { at + 8 ≤ length s.now }
    ensures { Loaded 8 s.now at result }
{
    load32(s, at) + 4294967296 * load32(s, at + 4)
}

// The stores too are assignments of bytes, by halves: a step rests on the compiler making one store of eight (rust/compare/tests/stores.rs).

// The 2 low bytes of `v`, stored from `at` on.
pub fn store16(s: &mut [u8], at: usize, v: u64)
    requires { at + 2 ≤ length s.old }
    ensures { s.new ≡ sets s.old at (digits 2 v) }
{
    s[at] = (v % 256) as u8;
    s[at + 1] = (v / 256 % 256) as u8;
}

// The 4 low bytes of `v`, stored from `at` on.
pub fn store32(s: &mut [u8], at: usize, v: u64)
    requires { at + 4 ≤ length s.old }
    ensures { s.new ≡ sets s.old at (digits 4 v) }
{
    store16(s, at, v);
    store16(s, at + 2, v / 65536);
}

// The word `v`, stored at `at`.
pub fn store64(s: &mut [u8], at: usize, v: u64)
    requires { at + 8 ≤ length s.old }
    ensures { s.new ≡ put s.old at v }
{
    store32(s, at, v);
    store32(s, at + 4, v / 4294967296);
}
