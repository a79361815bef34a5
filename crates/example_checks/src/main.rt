// Checks over many bytes, whose sums are reduced often, and checks brought up to date. What is printed is compared with the stored values in
// `stdout`, which were worked out apart from this code.
#![tactic(auto)]

use examples::memory::ramp;
use examples::report::{check, value};
use std::io;

// The byte at 96 becomes `v`: the check brought up to date, and of the whole.
fn change(
    rt: &impl Print,
    updated: &str,
    whole: &str,
    s: &mut [u8; 4096],
    v: u8,
) -> io::Result<()> {
    let before = sums::check(s);
    let u = s[96];
    s[96] = v;
    value(rt, updated, sums::updated(before, 4000, u, v))?;
    check(rt, whole, s)
}

fn changes(rt: &impl Print, s: &mut [u8; 4096]) -> io::Result<()> {
    change(
        rt,
        "byte 96 falls, updated: ",
        "byte 96 falls, whole: ",
        s,
        0,
    )?;
    change(rt, "and rises, updated: ", "and rises, whole: ", s, 255)
}

// Bytes hex FF around the end of a block of 2,048, two blocks of them, and 5,553: in one block so many could overflow sums of 32 bits.
fn high_blocks(rt: &impl Print, s: &[u8; 5553]) -> io::Result<()> {
    check(rt, "check of 2047 bytes ff: ", &s[..2047])?;
    check(rt, "check of 2048 bytes ff: ", &s[..2048])?;
    check(rt, "check of 2049 bytes ff: ", &s[..2049])?;
    check(rt, "check of 4096 bytes ff: ", &s[..4096])?;
    check(rt, "check of 5553 bytes ff: ", s)
}

// The same of other bytes.
fn blocks(rt: &impl Print, s: &[u8; 65536]) -> io::Result<()> {
    check(rt, "check of 2047 bytes: ", &s[..2047])?;
    check(rt, "check of 2048 bytes: ", &s[..2048])?;
    check(rt, "check of 2049 bytes: ", &s[..2049])?;
    check(rt, "check of 5553 bytes: ", &s[..5553])
}

fn main(rt: HostRuntime) -> io::Result<()> {
    let high = [255u8; 5553];
    let mut long = [0u8; 65536];
    let mut part = [0u8; 4096];
    check(&rt, "check of 1200 bytes ff: ", &high[..1200])?;
    ramp(&mut long, 0);
    check(&rt, "check of 65536 bytes: ", &long)?;
    ramp(&mut part, 0);
    check(&rt, "check of 4096 bytes: ", &part)?;
    changes(&rt, &mut part)?;
    high_blocks(&rt, &high)?;
    blocks(&rt, &long)
}
