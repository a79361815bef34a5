// Bytes behind a body that are not zero (A.2). The pool R 2, C 2, Z 1 has the tag 5 object, body hex 61, at cell 0: behind its body are bytes
// 4,625 to 4,671.
use examples::calls::{begin, forged, say, store};
use examples::memory::{fill, set};
use examples::report::{body, check, entry, repaired, scrub};
use record::Phase;
use std::io;
use transaction::Transaction;

// The pool with that object.
fn save(p: &mut [u8], s: &mut [u8]) {
    let _ = pool::format(p, 2, 2, 1, 1);
    saving::save(p, s, 5, b"a");
}

// What is answered about the object: a write and a free by the transaction given, look and scrub.
fn judge(rt: &impl Print, name: &str, t: Transaction, p: &[u8], s: &mut [u8]) -> io::Result<()> {
    say(rt, name, t.write(p, s, 0, 0, b"b"))?;
    say(rt, "  free: ", t.free(p, s, 0))?;
    body(rt, "  look: ", p, 0)?;
    scrub(rt, "  scrub: ", p)
}

// The same with a byte set.
fn changed(rt: &impl Print, name: &str, p: &mut [u8], s: &mut [u8], at: usize) -> io::Result<()> {
    save(p, s);
    set(p, at, 1);
    judge(rt, name, begin(p), p, s)
}

// The first byte behind the body; a byte behind the head of the free run, which may hold anything.
fn bytes(rt: &impl Print, p: &mut [u8], s: &mut [u8]) -> io::Result<()> {
    changed(rt, "write with byte 4625 set: ", p, s, 4625)?;
    changed(rt, "write with byte 4692 set: ", p, s, 4692)
}

// The first page of row 0 rebuilt.
fn repair(rt: &impl Print, p: &mut [u8]) -> io::Result<()> {
    let altered = pool::repair(p, &[1, 0]);
    repaired(rt, "  repair with masks 1, 0: ", altered)?;
    scrub(rt, "  scrub: ", p)
}

// The last byte behind the body: repair restores it.
fn cured(rt: &impl Print, p: &mut [u8], s: &mut [u8]) -> io::Result<()> {
    changed(rt, "write with byte 4671 set: ", p, s, 4671)?;
    repair(rt, p)?;
    say(rt, "  write: ", begin(p).write(p, s, 0, 0, b"b"))?;
    Ok(())
}

// Its parity byte too: parity is right, and repair alters nothing.
fn kept(rt: &impl Print, p: &mut [u8], s: &mut [u8]) -> io::Result<()> {
    save(p, s);
    set(p, 4671, 1);
    set(p, 5695, 1);
    let t = begin(p);
    judge(rt, "write with bytes 4671 and 5695 set: ", t, p, s)?;
    check(rt, "  check of that pool: ", p)?;
    repair(rt, p)?;
    check(rt, "  check of that pool: ", p)
}

// A word staged at 4,664 whose last byte, 4,671, is `b`: write and free judge what is staged, look and scrub what is committed.
fn staged(rt: &impl Print, name: &str, p: &[u8], b: u8) -> io::Result<()> {
    let mut staging = [0u8; 2032];
    staging[0] = 56;
    staging[1] = 18;
    staging[15] = b;
    judge(rt, name, forged(1, Phase::Open), p, &mut staging)
}

fn words(rt: &impl Print, p: &mut [u8], s: &mut [u8]) -> io::Result<()> {
    save(p, s);
    staged(rt, "write with byte 4671 staged as 1: ", p, 1)?;
    set(p, 4671, 1);
    staged(rt, "write with byte 4671 set, staged as 0: ", p, 0)
}

// A fresh pool with hex 5A in all data bytes behind the free head, its parity made right.
fn stale(rt: &impl Print, p: &mut [u8]) -> io::Result<()> {
    let _ = pool::format(p, 2, 2, 1, 1);
    fill(p, 4624..5632, 90);
    let altered = pool::repair(p, &[4, 4]);
    repaired(
        rt,
        "5a behind the free head, repair with masks 4, 4: ",
        altered,
    )?;
    check(rt, "  check of that pool: ", p)?;
    scrub(rt, "  scrub: ", p)
}

// The object taken from that run: the bytes behind its body are cleared.
fn taken(rt: &impl Print, p: &mut [u8], s: &mut [u8]) -> io::Result<()> {
    let names = ["  allocate tag 5, body 61: ", "  commit: "];
    store(rt, names, p, s, 771)?;
    scrub(rt, "  scrub: ", p)
}

fn written(rt: &impl Print, p: &[u8], s: &mut [u8; 2032]) -> io::Result<()> {
    say(rt, "  write 62 over it: ", begin(p).write(p, s, 0, 0, b"b"))?;
    entry(rt, "  target ", &s[..16])?;
    entry(rt, "  target ", &s[16..32])
}

pub fn cases(rt: &impl Print) -> io::Result<()> {
    let mut pool = [0u8; 6144];
    let mut staging = [7u8; 2032];
    bytes(rt, &mut pool, &mut staging)?;
    cured(rt, &mut pool, &mut staging)?;
    kept(rt, &mut pool, &mut staging)?;
    words(rt, &mut pool, &mut staging)?;
    stale(rt, &mut pool)?;
    taken(rt, &mut pool, &mut staging)?;
    written(rt, &pool, &mut staging)
}
