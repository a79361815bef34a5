// Transactions begun on pool A and offered to B, of the same shape, and to S, a smaller one: refusal 11, and those before and after it.
use examples::calls::{forged, say, told};
use examples::report::check;
use record::Phase;
use std::io;
use transaction::Transaction;

// The calls that stage or start a commit, on the pool given.
fn offer(rt: &impl Print, name: &str, t: Transaction, p: &[u8], s: &mut [u8]) -> io::Result<()> {
    say(rt, name, t.allocate(p, s, 5, b"a"))?;
    say(rt, "  write: ", t.write(p, s, 0, 0, b"b"))?;
    say(rt, "  free: ", t.free(p, s, 0))?;
    told(rt, "  commit: ", t.commit(p, s))?;
    check(rt, "  check of staging: ", s)
}

// An object staged on A; its record offered to B and S.
pub fn stages(
    rt: &impl Print,
    a: &[u8],
    b: &[u8],
    small: &[u8],
    s: &mut [u8],
) -> io::Result<Transaction> {
    let t = told(rt, "begin on A: ", Transaction::begin(a))?;
    let r = t.allocate(a, s, 5, b"a");
    let t = say(rt, "allocate tag 5, body 61 on A: ", r)?;
    check(rt, "  check of staging: ", s)?;
    offer(rt, "allocate with that record on B: ", t, b, s)?;
    offer(rt, "allocate with that record on S: ", t, small, s)?;
    Ok(t)
}

// Its commit on A; the first step of that offered to B.
pub fn commits(
    rt: &impl Print,
    t: Transaction,
    a: &mut [u8],
    b: &mut [u8],
    s: &[u8],
) -> io::Result<()> {
    let t = told(rt, "commit on A: ", t.commit(a, s))?;
    told(rt, "  advance on B: ", t.advance(b, s))?;
    say(rt, "  step on B: ", t.step(b, s))?;
    say(rt, "  step on A: ", t.step(a, s))?;
    Ok(())
}

// What begin refuses; what a refused begin hands back, offered to A. B has a seal set.
pub fn begins(rt: &impl Print, a: &[u8; 6144], b: &[u8], s: &mut [u8]) -> io::Result<()> {
    let r = Transaction::begin(&a[..6143]);
    told(rt, "begin on 6143 bytes: ", r)?;
    let r = Transaction::begin(&[0; 6144]);
    told(rt, "begin without a header: ", r)?;
    let t = told(rt, "begin with a seal set: ", Transaction::begin(b))?;
    offer(rt, "allocate with that record on A: ", t, a, s)
}

// Refusals 29 and 21 stand after 11: a commit without entries closes at once, and B has a seal set.
pub fn after(rt: &impl Print, a: &[u8], b: &[u8], s: &mut [u8]) -> io::Result<()> {
    let t = told(rt, "begin on A: ", Transaction::begin(a))?;
    let r = t.allocate(b, s, 5, b"a");
    say(rt, "  open, on B with a seal set: ", r)?;
    let t = told(rt, "  commit: ", t.commit(a, s))?;
    let r = t.allocate(b, s, 5, b"a");
    say(rt, "  closed, on B with a seal set: ", r)?;
    Ok(())
}

// Targets outside S; staging of 2,031 bytes.
pub fn before(
    rt: &impl Print,
    a: &[u8],
    b: &[u8],
    small: &[u8],
    s: &mut [u8; 2032],
) -> io::Result<()> {
    let t = told(rt, "begin on A: ", Transaction::begin(a))?;
    let r = t.allocate(a, s, 6, &[90; 496]);
    let t = say(rt, "  allocate 496 bytes: ", r)?;
    let r = t.allocate(small, s, 5, b"a");
    say(rt, "  that record on S: ", r)?;
    let r = t.allocate(b, &mut s[..2031], 5, b"a");
    say(rt, "  on B with staging of 2031 bytes: ", r)?;
    Ok(())
}

// A count above 127.
pub fn many(rt: &impl Print, b: &[u8], s: &mut [u8]) -> io::Result<()> {
    let t = forged(128, Phase::Open);
    say(rt, "128 entries of A on B: ", t.allocate(b, s, 5, b"a"))?;
    Ok(())
}
