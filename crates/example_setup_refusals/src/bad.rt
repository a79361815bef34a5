// What set-ups refuse, with set-up 3 in the pool R 2, C 2, Z 1: nothing changes.
use crate::calls::{change, look_up};
use examples::calls::say;
use examples::memory::copy;
use examples::report::check;
use examples::saves::{keep, recall, setup};
use std::io;

// What is given to a save, and its answer.
fn offer(rt: &impl Print, p: &[u8], s: &mut [u8], n: usize, body: &[u8]) -> io::Result<()> {
    let length = body.len();
    let room = s.len();
    print!(rt; "save {n}, body {length}, staging {room}")?;
    say(rt, ": ", setups::save(p, s, n, body))?;
    Ok(())
}

fn numbers(rt: &impl Print, p: &[u8], s: &mut [u8]) -> io::Result<()> {
    offer(rt, p, &mut [], 10, b"")?;
    offer(rt, p, s, usize::MAX, &setup(3))?;
    recall(rt, p, usize::MAX)
}

fn bodies(rt: &impl Print, p: &[u8], s: &mut [u8]) -> io::Result<()> {
    for n in [0, 119, 121, 497] {
        offer(rt, p, s, 3, &[90; 497][..n])?;
    }
    Ok(())
}

fn stagings(rt: &impl Print, p: &[u8], s: &mut [u8; 2032]) -> io::Result<()> {
    let body = setup(3);
    offer(rt, p, &mut [], 3, &body)?;
    offer(rt, p, &mut s[..2031], 3, &body)
}

// What is answered on this pool.
fn ask(rt: &impl Print, name: &str, p: &[u8], s: &mut [u8]) -> io::Result<()> {
    println!(rt; "{name}")?;
    offer(rt, p, s, 3, &setup(3))?;
    recall(rt, p, 3)?;
    look_up(rt, p, 103, 0)
}

fn lengths(rt: &impl Print, p: &[u8; 6144], s: &mut [u8]) -> io::Result<()> {
    ask(rt, "pool of no bytes", &[], &mut [])?;
    ask(rt, "pool of 6143 bytes", &p[..6143], s)
}

// Neither header valid; two that differ: a pool with another id behind the first header of `p`.
fn headers(rt: &impl Print, p: &[u8; 6144], s: &mut [u8]) -> io::Result<()> {
    let mut other = [0u8; 6144];
    ask(rt, "pool without a header", &other, s)?;
    let _ = pool::format(&mut other, 2, 2, 1, 2);
    copy(&mut other, &p[..256]);
    ask(rt, "pool with two headers", &other, s)
}

fn sealed(rt: &impl Print, p: &[u8], s: &mut [u8; 2032]) -> io::Result<()> {
    ask(rt, "sealed pool", p, s)?;
    ask(rt, "sealed pool", p, &mut s[..10])
}

fn checks(rt: &impl Print, p: &[u8], s: &[u8]) -> io::Result<()> {
    check(rt, "  check of that pool: ", p)?;
    check(rt, "  check of staging: ", s)
}

fn refused(rt: &impl Print, p: &[u8; 6144], s: &mut [u8; 2032]) -> io::Result<()> {
    numbers(rt, p, s)?;
    bodies(rt, p, s)?;
    stagings(rt, p, s)?;
    lengths(rt, p, s)?;
    headers(rt, p, s)
}

pub fn cases(rt: &impl Print, p: &mut [u8; 6144]) -> io::Result<()> {
    let mut staging = [7u8; 2032];
    keep(rt, p, 3, 3)?;
    checks(rt, p, &staging)?;
    refused(rt, p, &mut staging)?;
    checks(rt, p, &staging)?;
    change(rt, p, 512, 1)?;
    sealed(rt, p, &mut staging)
}
