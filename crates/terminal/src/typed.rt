// Lines as they come: one byte a read, so that each line is answered before the next is typed.
ghost use Rattle.std.specs.Prelude.{◌≡◌, ◌≤◌, ⊤, length, MatchOption};

use std::io::Read;

// One byte of the input; none at its end, as which a read that fails counts.
fn next_byte(input: &mut impl Read) -> Option<u8> {
    let mut one = [0u8; 1];
    match input.read(&mut one) {
        Ok(1) => Some(one[0]),
        _ => None,
    }
}

// Keeps one byte more at `at`, where there is room; the place behind it. No texts::Text: that counts what does not fit.
fn put(buf: &mut [u8], at: usize, b: u8) -> usize
    requires { at ≤ length buf.old }
    ensures { result ≤ length buf.old }
{
    if at < buf.len() {
        buf[at] = b;
        return at + 1;
    }
    at
}

// Reads a line, without its line feed; what does not fit is passed over. The input's end ends a line too, if that has a byte; else there is none
// any more. The line is the front of `buf`. No run has as many bytes as the loop may take.
pub fn read_line<'a>(input: &mut impl Read, buf: &'a mut [u8]) -> Option<&'a [u8]>
    ensures { MatchOption result ⊤ (λ line. (line.ref_ptr ≡ buf.entry.ref_ptr) × (length line.now ≤ length buf.old)) }
{
    let mut at = 0;
    // By number, which alone tells that the loop ends: what comes is no items.
    for _ in 0..u64::MAX {
        match next_byte(input) {
            None if at == 0 => return None,
            None | Some(b'\n') => break,
            Some(b) => at = put(buf, at, b),
        }
    }
    Some(&buf[..at])
}
