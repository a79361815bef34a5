// Pools made and bytes of them changed by the example programs; where the place is not there, nothing.
ghost use Rattle.std.specs.Prelude.{◌≡◌, ◌+◌, ◌*◌, ◌%◌, ◌^◌, ◌-◌, length, set, replicate, slice_index, EachIndex, bit_xor, nat_le, if◌then◌else◌};
ghost use Rattle.std.proofs.lemmas.List.Edits.{sets};
ghost use Rattle.rules.specs.Format.{formatted};

use std::ops::Range;

// A fresh pool of this shape, with the id 1; where `N` is not its length, bytes 0.
pub fn fresh<const N: usize>(rows: usize, cols: usize, zones: usize) -> [u8; N]
    ensures { result ≡ (formatted (replicate N 0) rows cols zones 1).pool }
{
    let mut pool = [0u8; N];
    let _ = pool::format(&mut pool, rows, cols, zones, 1);
    pool
}

// The bytes `first`, 7 more, 14 more and so on, modulo 256.
pub fn ramp(s: &mut [u8], first: u8)
    ensures { EachIndex s.new (λ k. slice_index s.new k ≡ (first + 7 * k) % 2 ^ 8) }
{
    let mut b = first;
    for byte in s.iter_mut() {
        *byte = b;
        b = b.wrapping_add(7);
    }
}

pub fn set(p: &mut [u8], at: usize, b: u8)
    ensures { p.new ≡ set p.old at b }
{
    if at < p.len() {
        p[at] = b;
    }
}

// Turns the lowest bit of a byte.
pub fn turn(p: &mut [u8], at: usize)
    ensures { p.new ≡ set p.old at (bit_xor (slice_index p.old at) 1) }
{
    if at < p.len() {
        p[at] ^= 1;
    }
}

// Each byte of the range becomes `b`.
pub fn fill(p: &mut [u8], range: Range<usize>, b: u8)
    ensures { p.new ≡ (if nat_le range.end (length p.old) then sets p.old range.start (replicate (range.end - range.start) b) else p.old) }
{
    if range.start <= range.end && range.end <= p.len() {
        p[range].fill(b);
    }
}

// Copies `from` over the front of `to`.
pub fn copy(to: &mut [u8], from: &[u8])
    ensures { to.new ≡ (if nat_le (length from.now) (length to.old) then sets to.old 0 from.now else to.old) }
{
    if from.len() <= to.len() {
        to[..from.len()].copy_from_slice(from);
    }
}
