// What set-ups refuse (A.1), and how a look-up by tag goes on. What is printed is compared with the stored values in `stdout`, which were
// worked out apart from this code.
#![tactic(auto)]

mod calls; // calls that print their answers
mod damage; // a byte of a set-up changed
mod others; // objects with these tags that no save made
mod broken; // two zones, one of them broken
mod bad; // bad input

use examples::calls::formatted;
use std::io;

fn on_damage(rt: &impl Print, p: &mut [u8]) -> io::Result<()> {
    formatted(rt, p, 2, 2, 1)?;
    damage::cases(rt, p)
}

fn on_others(rt: &impl Print, p: &mut [u8]) -> io::Result<()> {
    formatted(rt, p, 2, 2, 1)?;
    others::cases(rt, p)
}

fn on_broken(rt: &impl Print, p: &mut [u8]) -> io::Result<()> {
    formatted(rt, p, 1, 1, 2)?;
    broken::cases(rt, p)
}

fn on_bad(rt: &impl Print, p: &mut [u8; 6144]) -> io::Result<()> {
    formatted(rt, p, 2, 2, 1)?;
    bad::cases(rt, p)
}

fn main(rt: HostRuntime) -> io::Result<()> {
    let mut pool = [0u8; 6144];
    let mut zoned = [0u8; 5632];
    on_damage(&rt, &mut pool)?;
    on_others(&rt, &mut pool)?;
    on_broken(&rt, &mut zoned)?;
    on_bad(&rt, &mut pool)
}
