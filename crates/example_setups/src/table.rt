// The ten set-ups in the pool R 4, C 2, Z 1: number 3 saved twice, then the others.
use crate::{check, keep_each};
use examples::saves::{keep, recall};
use std::io;

// Number 3 is the object at cell 0.
fn head(rt: &impl Print, p: &[u8]) -> io::Result<()> {
    recall(rt, p, 3)?;
    examples::report::head(rt, p)?;
    check(rt, p)
}

fn twice(rt: &impl Print, p: &mut [u8]) -> io::Result<()> {
    keep(rt, p, 3, 3)?;
    head(rt, p)?;
    keep(rt, p, 3, 99)?;
    head(rt, p)
}

fn others(rt: &impl Print, p: &mut [u8]) -> io::Result<()> {
    recall(rt, p, 7)?;
    recall(rt, p, 10)?;
    keep_each(rt, p, 0..3)?;
    keep_each(rt, p, 4..10)
}

fn recall_each(rt: &impl Print, p: &[u8]) -> io::Result<()> {
    (0..10).try_for_each(|n| recall(rt, p, n))
}

pub fn cases(rt: &impl Print, p: &mut [u8]) -> io::Result<()> {
    twice(rt, p)?;
    others(rt, p)?;
    recall_each(rt, p)?;
    check(rt, p)?;
    examples::report::scan(rt, p)
}
