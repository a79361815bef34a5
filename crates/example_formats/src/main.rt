// Pools of several shapes formatted, and what format refuses: the bench examples of document 01 on a pool's length, and others. What is
// printed is compared with the stored values in `stdout`, which were worked out apart from this code.
#![tactic(auto)]

use examples::report::{check, outcome};
use std::io;

fn lengths(rt: &impl Print, s: &mut [u8; 65536]) -> io::Result<()> {
    let made = pool::format(&mut s[..6144], 2, 2, 1, 1);
    outcome(rt, "format 2 2 1 in 6144 bytes: ", made)?;
    check(rt, "check of that pool: ", &s[..6144])?;
    let made = pool::format(&mut s[..6143], 2, 2, 1, 1);
    outcome(rt, "format 2 2 1 in 6143 bytes: ", made)?;
    let made = pool::format(&mut s[..6145], 2, 2, 1, 1);
    outcome(rt, "format 2 2 1 in 6145 bytes: ", made)?;
    check(rt, "check of that pool: ", &s[..6144])
}

fn ranges(rt: &impl Print, s: &mut [u8; 65536]) -> io::Result<()> {
    let made = pool::format(&mut s[..0], 2, 2, 1, 1);
    outcome(rt, "format 2 2 1 in no bytes: ", made)?;
    let made = pool::format(&mut s[..6144], 0, 2, 1, 1);
    outcome(rt, "format 0 2 1: ", made)?;
    let made = pool::format(&mut s[..6144], 2, 65, 1, 1);
    outcome(rt, "format 2 65 1: ", made)?;
    let made = pool::format(&mut s[..6144], 2, 2, 17, 1);
    outcome(rt, "format 2 2 17: ", made)
}

fn ids(rt: &impl Print, s: &mut [u8; 65536]) -> io::Result<()> {
    let made = pool::format(&mut s[..6144], 2, 2, 1, 0);
    outcome(rt, "format 2 2 1 with id 0: ", made)?;
    let made = pool::format(&mut s[..14848], 3, 5, 2, 0x1234_5678_9abc_def0);
    outcome(rt, "format 3 5 2 in 14848 bytes: ", made)?;
    check(rt, "check of that pool: ", &s[..14848])
}

fn main(rt: HostRuntime) -> io::Result<()> {
    let mut pool = [0u8; 65536];
    lengths(&rt, &mut pool)?;
    ranges(&rt, &mut pool)?;
    ids(&rt, &mut pool)
}
