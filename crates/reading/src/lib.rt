// A buffer filled from an input, as far as the input goes, or with all of it.
#![tactic(auto)]

ghost use Rattle.std.specs.Prelude.{◌≤◌, ⊤, length, IfOk, MatchOption};

use std::io;
use std::io::Read;

// Reads until `buf` is full or the input ends; how many bytes came. A read that fails ends it, with the error.
pub fn read_full(input: &mut impl Read, buf: &mut [u8]) -> io::Result<usize>
    ensures { IfOk result (λ n. n ≤ length buf.new) }
{
    let mut done = 0;
    // A while: each read tells how far it came, and std's read_exact does not tell it at the input's end.
    while done < buf.len() {
        let n = input.read(&mut buf[done..])?;
        if n == 0 {
            break;
        }
        done += n;
    }
    Ok(done)
}

// Reads the input to its end; how many bytes it has, or none where that is more than `buf` holds.
pub fn read_whole(input: &mut impl Read, buf: &mut [u8]) -> io::Result<Option<usize>>
    ensures { IfOk result (λ r. MatchOption r ⊤ (λ n. n ≤ length buf.new)) }
{
    let n = read_full(input, buf)?;
    let more = read_full(input, &mut [0])?;
    Ok((more == 0).then_some(n))
}
