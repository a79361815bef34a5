// Two set-ups in the pool R 2, C 2, Z 1; one byte of number 1 is changed.
use crate::calls::{change, look_up};
use examples::saves::{keep, recall};
use std::io;

// Number 1 has the cells 3 to 5: its body begins at 4,816.
fn one(rt: &impl Print, p: &mut [u8]) -> io::Result<()> {
    change(rt, p, 4816, 0)?;
    recall(rt, p, 1)?;
    keep(rt, p, 1, 1)?;
    look_up(rt, p, 101, 0)
}

fn others(rt: &impl Print, p: &mut [u8]) -> io::Result<()> {
    recall(rt, p, 2)?;
    recall(rt, p, 0)?;
    keep(rt, p, 0, 99)?;
    recall(rt, p, 0)
}

pub fn cases(rt: &impl Print, p: &mut [u8]) -> io::Result<()> {
    keep(rt, p, 0, 0)?;
    keep(rt, p, 1, 1)?;
    one(rt, p)?;
    others(rt, p)
}
