// What the scan prints for the pools in `data` and for others made of them: objects, breaks, parity, bytes behind a body, totals and each
// refusal. The pools and the expected output in `stdout` were worked out apart from this code.
//
//   fresh      R 1, C 1, Z 1, one free run          objects    R 3, C 2, Z 2: bodies of 1 to 496 bytes, damaged ones, a full zone
//   different  the same with another id in page 1    breaks     R 2, C 1, Z 16: each zone broken in another way, the last one whole
//   parity     R 2, C 3, Z 2, four columns wrong      stray      R 2, C 1, Z 8: bytes behind bodies of 1 to 495 bytes, and in free runs
//   bench      R 2, C 2, Z 1: the tag 5 object of document 01, byte 4,625 behind its body set
//   full       R 2, C 2, Z 1: two objects of eight cells
#![tactic(auto)]

use examples::memory::{copy, fresh, set};
use std::fs::File;
use std::io;
use std::rt::Files;

// The text of `pool`, under its name.
fn show(rt: &impl Print, name: &str, pool: &[u8]) -> io::Result<()> {
    println!(rt; "{name}")?;
    examples::report::scan(rt, pool)
}

// The pool in the file `name`, of which 65,536 bytes are read at most.
fn show_file(rt: &(impl Print + Eprint + Files), name: &str) -> io::Result<()> {
    let mut pool = [0u8; 65536];
    let mut file = match File::open(rt, name) {
        Ok(file) => file,
        Err(e) => return rt.eprintln(format_args!("{name}: {e}")),
    };
    let n = reading::read_full(&mut file, &mut pool)?;
    show(rt, name, &pool[..n])
}

// The fresh pool with the bytes at these places set to `b`.
fn show_changed(rt: &impl Print, name: &str, places: &[usize], b: u8) -> io::Result<()> {
    let mut pool = fresh::<5120>(1, 1, 1);
    for &at in places {
        set(&mut pool, at, b);
    }
    show(rt, name, &pool)
}

// A fresh pool of the least shape, of which bytes are left out, and with one byte more.
fn show_lengths(rt: &impl Print) -> io::Result<()> {
    let mut pool = [0u8; 5121];
    copy(&mut pool, &fresh::<5120>(1, 1, 1));
    show(rt, "no bytes", &pool[0..0])?;
    show(rt, "511 bytes", &pool[0..511])?;
    show(rt, "512 bytes", &pool[0..512])?;
    show(rt, "5,119 bytes", &pool[0..5119])?;
    show(rt, "5,121 bytes", &pool)
}

// The longest pool that is scanned, and longer ones.
fn show_longest(rt: &impl Print) -> io::Result<()> {
    show(rt, "65,536 bytes", &fresh::<65536>(13, 17, 1))?;
    let longer = fresh::<66048>(14, 16, 1);
    show(rt, "65,537 bytes", &longer[0..65537])?;
    show(rt, "66,048 bytes", &longer)
}

fn main(rt: HostRuntime) -> io::Result<()> {
    for name in [
        "fresh",
        "objects",
        "breaks",
        "parity",
        "stray",
        "bench",
        "full",
        "different",
    ] {
        show_file(&rt, name)?;
    }
    show_lengths(&rt)?;
    show_changed(&rt, "first header invalid", &[0], 0)?;
    show_changed(&rt, "second header invalid", &[256], 0)?;
    show_changed(&rt, "both invalid", &[0, 256], 0)?;
    show_changed(&rt, "seal A", &[519], 1)?;
    show_changed(&rt, "seal B", &[2560], 1)?;
    show_changed(&rt, "seals empty, logs not", &[520, 2568], 1)?;
    show_changed(&rt, "the only zone broken", &[4608, 4864], 0)?;
    show_longest(&rt)
}
