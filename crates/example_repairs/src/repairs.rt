// Pages repaired, and how many bytes that altered (A.8), in the pool R 2, C 2, Z 1: row 0 has its pages at 4,608 and 4,864, row 1 at 5,120 and
// 5,376, and the parity row begins at 5,632.
use examples::memory::{fill, set, turn};
use examples::report::{check, repaired};
use std::io;

fn fresh(p: &mut [u8]) {
    let _ = pool::format(p, 2, 2, 1, 1);
}

// Repairs by the masks `a` and `b`, and says the pool's check then.
fn repair(rt: &impl Print, name: &str, p: &mut [u8], a: u16, b: u16) -> io::Result<()> {
    repaired(rt, name, pool::repair(p, &[a, b]))?;
    check(rt, "  check of that pool: ", p)
}

// A byte of the parity row scribbled over; the same repair again; no page named.
fn bytes(rt: &impl Print, p: &mut [u8]) -> io::Result<()> {
    fresh(p);
    set(p, 5632, 77);
    repair(rt, "repair with byte 5632 set, masks 4, 0: ", p, 4, 0)?;
    repair(rt, "the same again: ", p, 4, 0)?;
    repair(rt, "repair with masks 0, 0: ", p, 0, 0)
}

// Whole pages: what was there before counts, not what was lost.
fn whole(rt: &impl Print, p: &mut [u8]) -> io::Result<()> {
    fill(p, 4608..4864, 238);
    repair(
        rt,
        "repair with page 0 of row 0 all ee, masks 1, 0: ",
        p,
        1,
        0,
    )?;
    fill(p, 4608..4864, 0);
    repair(
        rt,
        "repair with page 0 of row 0 all 00, masks 1, 0: ",
        p,
        1,
        0,
    )?;
    fill(p, 4608..4864, 238);
    fill(p, 5376..5632, 238);
    repair(
        rt,
        "repair with page 1 of row 1 all ee too, masks 1, 2: ",
        p,
        1,
        2,
    )
}

// The page of an object; a page named that is not the one with the wrong byte.
fn others(rt: &impl Print, p: &mut [u8]) -> io::Result<()> {
    let mut staging = [0u8; 2032];
    saving::save(p, &mut staging, 5, b"a");
    check(rt, "check with the tag 5 object: ", p)?;
    fill(p, 4608..4864, 0);
    repair(rt, "repair with its page all 00, masks 1, 0: ", p, 1, 0)?;
    fresh(p);
    turn(p, 4608);
    repair(
        rt,
        "repair with a bit of byte 4608 turned, masks 2, 0: ",
        p,
        2,
        0,
    )
}

fn refused(rt: &impl Print, p: &mut [u8]) -> io::Result<()> {
    fresh(p);
    repair(rt, "repair with masks 5, 0: ", p, 5, 0)?;
    repair(rt, "repair with masks 8, 0: ", p, 8, 0)?;
    repaired(rt, "repair with one mask: ", pool::repair(p, &[4]))
}

// R 3, C 5, Z 2: row 0 of each column lost, in both zones.
fn zones(rt: &impl Print) -> io::Result<()> {
    let mut pool = examples::memory::fresh::<14848>(3, 5, 2);
    fill(&mut pool, 4608..5888, 238);
    fill(&mut pool, 9728..11008, 238);
    repaired(
        rt,
        "repair of 3 5 2 with row 0 of both zones all ee: ",
        pool::repair(&mut pool, &[1; 10]),
    )
}

pub fn cases(rt: &impl Print, p: &mut [u8]) -> io::Result<()> {
    bytes(rt, p)?;
    whole(rt, p)?;
    others(rt, p)?;
    refused(rt, p)?;
    zones(rt)
}
