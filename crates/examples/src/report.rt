// What the example programs print: a name, then a check, a body, an entry, scrub's counts, what repair altered, a scan, or the outcome of a call.
// They only print, so they have no contract.
// Functions and no `Display`: `Answer`, `Refusal` and `Counts` are of other crates, so that no impl for them can stand here.
use answers::Answer;
use refusals::Refusal;
use scrub::Counts;
use std::io;

pub fn check(rt: &impl Print, name: &str, s: &[u8]) -> io::Result<()> {
    value(rt, name, sums::check(s))
}

// A check in hexadecimal.
pub fn value(rt: &impl Print, name: &str, check: u32) -> io::Result<()> {
    println!(rt; "{name}{check:08x}")
}

// The check in the head at cell 0.
pub fn head(rt: &impl Print, pool: &[u8]) -> io::Result<()> {
    if 4620 <= pool.len() {
        let check = words::load32(pool, 4616);
        println!(rt; "  check in its head: {check:08x}")?;
    }
    Ok(())
}

// A refusal, by its number.
pub fn refused(rt: &impl Print, name: &str, n: u8) -> io::Result<()> {
    println!(rt; "{name}refused {n}")
}

pub fn outcome(rt: &impl Print, name: &str, done: Result<(), Refusal>) -> io::Result<()> {
    match done {
        Ok(()) => println!(rt; "{name}done"),
        Err(refusal) => refused(rt, name, refusal.number()),
    }
}

// How many bytes repair altered, or the refusal.
pub fn repaired(rt: &impl Print, name: &str, altered: Result<usize, Refusal>) -> io::Result<()> {
    match altered {
        Ok(n) => println!(rt; "{name}altered {n}"),
        Err(refusal) => refused(rt, name, refusal.number()),
    }
}

pub fn answer(rt: &impl Print, name: &str, a: Answer) -> io::Result<()> {
    match a {
        Answer::Address(n) => println!(rt; "{name}address {n}"),
        Answer::Taken => println!(rt; "{name}taken"),
        Answer::Started => println!(rt; "{name}started"),
        Answer::Stored(k) => println!(rt; "{name}stored, step {k}"),
        Answer::Barrier(k) => println!(rt; "{name}barrier, step {k}"),
        Answer::Done(k) => println!(rt; "{name}done, steps {k}"),
        Answer::Refused(refusal) => refused(rt, name, refusal.number()),
    }
}

// The object at `address`: its body's first byte and length, or the refusal.
pub fn body(rt: &impl Print, name: &str, pool: &[u8], address: usize) -> io::Result<()> {
    let part = pool::look(pool, address);
    let n = part.len();
    match part.first() {
        Some(byte) => println!(rt; "{name}{byte:02x}, length {n}"),
        None => refused(rt, name, pool::look_refusal(pool, address)),
    }
}

// What scrub answers: objects met, damaged ones, broken zones, columns with wrong parity; or the refusal.
pub fn scrub(rt: &impl Print, name: &str, pool: &[u8]) -> io::Result<()> {
    match pool::scrub(pool) {
        Ok(
            Counts {
                objects,
                damaged,
                broken,
                columns,
            },
        ) => println!(rt; "{name}{objects}, {damaged}, {broken}, {columns}"),
        Err(refusal) => refused(rt, name, refusal.number()),
    }
}

// What poolscan prints of the pool.
pub fn scan(rt: &impl Print, pool: &[u8]) -> io::Result<()> {
    let mut out = [0u8; 65536];
    let k = scan::text(pool, &mut out);
    rt.write_all(&out[..k])
}

// The staged entry `e`: its target, and its word in hexadecimal.
pub fn entry(rt: &impl Print, name: &str, e: &[u8]) -> io::Result<()> {
    if e.len() == 16 {
        let target = words::load64(e, 0);
        let word = words::load64(e, 8);
        println!(rt; "{name}{target}, word {word:016x}")?;
    }
    Ok(())
}
