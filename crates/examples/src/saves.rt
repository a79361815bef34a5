// Set-ups saved and recalled for the example programs: each call prints what it was asked and what it answers.
use crate::calls::say;
use crate::memory::ramp;
use crate::report::{answer, refused};
use std::io;
use transaction::Transaction;

// Set-up `k`: the bytes k, k + 7, k + 14 and so on, modulo 256.
pub fn setup(k: usize) -> [u8; 120] {
    let mut body = [0u8; 120];
    ramp(&mut body, (k % 256) as u8);
    body
}

// Set-up `k` saved under the number `n`: the transaction handed back.
pub fn save(
    rt: &impl Print,
    p: &[u8],
    s: &mut [u8],
    n: usize,
    k: usize,
) -> io::Result<Transaction> {
    print!(rt; "save {n}, set-up {k}")?;
    say(rt, ": ", setups::save(p, s, n, &setup(k)))
}

// The same, and that transaction committed.
pub fn keep(rt: &impl Print, p: &mut [u8], n: usize, k: usize) -> io::Result<()> {
    let mut staging = [7u8; 2032];
    let t = save(rt, p, &mut staging, n, k)?;
    let r = saving::run(t, p, &staging);
    answer(rt, "  commit: ", r.answer)
}

// Set-up `n` recalled: where its bytes lie, their number and their check; or the refusal.
pub fn recall(rt: &impl Print, p: &[u8], n: usize) -> io::Result<()> {
    print!(rt; "recall {n}")?;
    match setups::recall_for(p, n) {
        Ok(body) => found(rt, body.at, setups::recall(p, n)),
        Err(_) => refused(rt, ": ", setups::recall_refusal(p, n)),
    }
}

fn found(rt: &impl Print, at: usize, part: &[u8]) -> io::Result<()> {
    let n = part.len();
    let check = sums::check(part);
    println!(rt; ": offset {at}, length {n}, check {check:08x}")
}
