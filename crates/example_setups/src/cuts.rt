// The second save of number 3 cut after step 66: the entries lie behind a barrier, and of what came since, seal A, all or nothing is kept.
use crate::check;
use examples::calls;
use examples::memory::copy;
use examples::report::answer;
use examples::saves::{keep, recall, save};
use std::io;
use transaction::Reply;

// The second save, and the start of its commit.
fn start(rt: &impl Print, p: &[u8], s: &mut [u8]) -> io::Result<Reply> {
    let t = save(rt, p, s, 3, 99)?;
    Ok(t.commit(p, s))
}

// So many steps more of the commit.
fn steps(
    rt: &impl Print,
    name: &str,
    r: Reply,
    p: &mut [u8],
    s: &[u8],
    n: usize,
) -> io::Result<Reply> {
    let r = saving::steps(r, p, s, n);
    answer(rt, name, r.answer)?;
    Ok(r)
}

// The pool after that cut: `p` if seal A was kept, `lost` if nothing was.
fn cut(rt: &impl Print, r: Reply, p: &mut [u8], lost: &mut [u8], s: &[u8]) -> io::Result<()> {
    let r = steps(rt, "  commit: ", r, p, s, 65)?;
    copy(lost, p);
    steps(rt, "  cut: ", r, p, s, 1)?;
    recall(rt, p, 3)
}

fn recover(rt: &impl Print, name: &str, p: &mut [u8]) -> io::Result<()> {
    calls::recover(rt, name, p)?;
    recall(rt, p, 3)?;
    check(rt, p)
}

pub fn cases(rt: &impl Print, p: &mut [u8]) -> io::Result<()> {
    let mut lost = [0u8; 7168];
    let mut staging = [7u8; 2032];
    keep(rt, p, 3, 3)?;
    let r = start(rt, p, &mut staging)?;
    cut(rt, r, p, &mut lost, &staging)?;
    recover(rt, "seal A kept, recovery: ", p)?;
    recover(rt, "nothing kept, recovery: ", &mut lost)
}
