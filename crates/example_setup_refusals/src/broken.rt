// Two zones, R 1, C 1, Z 2: the look-up from each cell on; then zone 1 is broken.
use crate::calls::{change, look_up, store};
use examples::saves::{keep, recall};
use std::io;

fn fill(rt: &impl Print, p: &mut [u8]) -> io::Result<()> {
    keep(rt, p, 0, 0)?;
    store(rt, p, 7, b"a")?;
    keep(rt, p, 1, 1)?;
    store(rt, p, 7, b"b")
}

// Cell 7 is the last one.
fn from(rt: &impl Print, p: &[u8]) -> io::Result<()> {
    look_up(rt, p, 7, 0)?;
    look_up(rt, p, 7, 4)?;
    look_up(rt, p, 7, 7)?;
    look_up(rt, p, 7, 8)?;
    look_up(rt, p, 7, usize::MAX)
}

// Look judges its own zone alone.
fn broken(rt: &impl Print, p: &mut [u8]) -> io::Result<()> {
    recall(rt, p, 0)?;
    keep(rt, p, 0, 0)?;
    look_up(rt, p, 100, 0)?;
    examples::report::body(rt, "look at 0: ", p, 0)
}

pub fn cases(rt: &impl Print, p: &mut [u8]) -> io::Result<()> {
    fill(rt, p)?;
    from(rt, p)?;
    change(rt, p, 5120, 3)?;
    broken(rt, p)
}
