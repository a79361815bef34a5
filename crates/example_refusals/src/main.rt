// What allocate, write and free refuse, in the pool R 2, C 2, Z 1. What is printed is compared with the stored values in `stdout`, which were
// worked out apart from this code.
#![tactic(auto)]

mod stray; // bytes behind a body

use examples::calls::{begin, say};
use examples::memory::{fresh, set};
use std::io;

// A body of no bytes and of 497; staging of 2,031 bytes.
fn limits(rt: &impl Print, p: &[u8], s: &mut [u8; 2032]) -> io::Result<()> {
    let t = begin(p);
    say(rt, "allocate no bytes: ", t.allocate(p, s, 5, b""))?;
    say(rt, "allocate 497 bytes: ", t.allocate(p, s, 5, &[90; 497]))?;
    let short = &mut s[..2031];
    say(rt, "staging of 2031 bytes: ", t.allocate(p, short, 5, b"a"))?;
    Ok(())
}

fn save(rt: &impl Print, p: &mut [u8], s: &mut [u8]) -> io::Result<()> {
    let r = begin(p).allocate(p, s, 5, &[90; 496]);
    let t = say(rt, "allocate 496 bytes: ", r)?;
    saving::run(t, p, s);
    Ok(())
}

// Two objects of eight cells fill the pool.
fn full(rt: &impl Print, p: &mut [u8], s: &mut [u8]) -> io::Result<()> {
    save(rt, p, s)?;
    save(rt, p, s)?;
    let r = begin(p).allocate(p, s, 5, b"a");
    say(rt, "allocate in a full pool: ", r)?;
    Ok(())
}

fn ranges(rt: &impl Print, p: &[u8], s: &mut [u8]) -> io::Result<()> {
    let t = begin(p);
    say(rt, "write no bytes: ", t.write(p, s, 0, 0, b""))?;
    say(rt, "write past the body: ", t.write(p, s, 0, 495, b"ab"))?;
    say(rt, "write its last bytes: ", t.write(p, s, 0, 494, b"ab"))?;
    Ok(())
}

// Cell 16 is not there, and at cell 1 no object begins.
fn addresses(rt: &impl Print, p: &[u8], s: &mut [u8]) -> io::Result<()> {
    let t = begin(p);
    say(rt, "write at cell 16: ", t.write(p, s, 16, 0, b"a"))?;
    say(rt, "write at cell 1: ", t.write(p, s, 1, 0, b"a"))?;
    say(rt, "free at cell 16: ", t.free(p, s, 16))?;
    say(rt, "free at cell 1: ", t.free(p, s, 1))?;
    Ok(())
}

// The object at cell 8 is damaged; then the zone is broken at cell 0; then a seal is set.
fn damaged(rt: &impl Print, p: &[u8], s: &mut [u8]) -> io::Result<()> {
    let t = begin(p);
    say(rt, "write over a damaged one: ", t.write(p, s, 8, 0, b"a"))?;
    say(rt, "free a damaged one: ", t.free(p, s, 8))?;
    Ok(())
}

fn broken(rt: &impl Print, p: &[u8], s: &mut [u8]) -> io::Result<()> {
    let t = begin(p);
    say(rt, "allocate in a broken zone: ", t.allocate(p, s, 5, b"a"))?;
    say(rt, "write in a broken zone: ", t.write(p, s, 8, 0, b"a"))?;
    Ok(())
}

// Begun before the seal is set: begin too is refused then.
fn sealed(rt: &impl Print, p: &mut [u8], s: &mut [u8]) -> io::Result<()> {
    let t = begin(p);
    set(p, 512, 1);
    say(rt, "free with a seal set: ", t.free(p, s, 8))?;
    Ok(())
}

fn main(rt: HostRuntime) -> io::Result<()> {
    let mut pool = fresh::<6144>(2, 2, 1);
    let mut staging = [7u8; 2032];
    limits(&rt, &pool, &mut staging)?;
    full(&rt, &mut pool, &mut staging)?;
    ranges(&rt, &pool, &mut staging)?;
    addresses(&rt, &pool, &mut staging)?;
    set(&mut pool, 5200, 1);
    damaged(&rt, &pool, &mut staging)?;
    set(&mut pool, 4608, 3);
    broken(&rt, &pool, &mut staging)?;
    sealed(&rt, &mut pool, &mut staging)?;
    stray::cases(&rt)
}
