// Objects with the tags of set-ups that no save made: in the pool R 2, C 2, Z 1 one of 119 bytes below one of 120, and two of 120.
use crate::calls::{change, look_up, store};
use examples::saves::{keep, recall, setup};
use std::io;

fn store_short(rt: &impl Print, p: &mut [u8]) -> io::Result<()> {
    let body = setup(4);
    store(rt, p, 104, &body[0..119])?;
    store(rt, p, 104, &body)
}

fn store_two(rt: &impl Print, p: &mut [u8]) -> io::Result<()> {
    let lower = setup(5);
    let upper = setup(6);
    store(rt, p, 105, &lower)?;
    store(rt, p, 105, &upper)
}

// The object of 119 bytes has the cells 1 to 3: its body begins at 4,688. That it is damaged is said first.
fn short(rt: &impl Print, p: &mut [u8]) -> io::Result<()> {
    recall(rt, p, 4)?;
    keep(rt, p, 4, 4)?;
    change(rt, p, 4688, 0)?;
    recall(rt, p, 4)
}

fn lower(rt: &impl Print, p: &mut [u8]) -> io::Result<()> {
    recall(rt, p, 5)?;
    keep(rt, p, 5, 99)?;
    recall(rt, p, 5)
}

fn upper(rt: &impl Print, p: &[u8]) -> io::Result<()> {
    look_up(rt, p, 105, 7)?;
    look_up(rt, p, 105, 8)?;
    look_up(rt, p, 105, 11)
}

pub fn cases(rt: &impl Print, p: &mut [u8]) -> io::Result<()> {
    store(rt, p, 7, b"a")?;
    store_short(rt, p)?;
    store_two(rt, p)?;
    keep(rt, p, 0, 0)?;
    short(rt, p)?;
    lower(rt, p)?;
    upper(rt, p)
}
