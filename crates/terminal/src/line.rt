// A line taken: the front panel's, or a command, which is obeyed on the pool.
use commands::Done;
use errors::Queue;
use std::fs::OpenFile;
use std::io;
use std::io::{Seek, Write};

// The set-up of `n` bytes at this place of the pool becomes the present one.
fn recalled(setup: &mut [u8], pool: &[u8], at: usize, n: usize) {
    if at <= pool.len() && n <= pool.len() - at {
        crate::panel::set(setup, &pool[at..at + n]);
    }
}

fn printed(rt: &impl Print, out: &[u8], n: usize) -> io::Result<()> {
    if n <= out.len() {
        rt.write_all(&out[..n])?;
    }
    Ok(())
}

// Carries out what a command line came to. False if the program is to end.
fn carry_out<F: Write + Seek + OpenFile>(
    rt: &(impl Print + Eprint),
    file: &mut Option<F>,
    pool: &mut [u8],
    setup: &mut [u8],
    done: Done,
    staging: &[u8],
    out: &[u8],
) -> io::Result<bool> {
    match done {
        Done::Nothing => {}
        Done::Saving(txn) => return crate::steps::commit(rt, file, pool, txn, staging),
        Done::Recalled(body) => recalled(setup, pool, body.at, body.length),
        Done::Printed(n) => printed(rt, out, n)?,
    }
    Ok(true)
}

// Obeys a command line.
fn obey<F: Write + Seek + OpenFile>(
    rt: &(impl Print + Eprint),
    file: &mut Option<F>,
    pool: &mut [u8],
    setup: &mut [u8],
    queue: Queue,
    line: &[u8],
) -> io::Result<Option<Queue>> {
    let mut staging = [0u8; 2032];
    let mut out = [0u8; 32];
    let obeyed = commands::obey(line, setup, queue, pool, &mut staging, &mut out);
    let done = obeyed.done;
    let going = carry_out(rt, file, pool, setup, done, &staging, &out)?;
    Ok(going.then_some(obeyed.queue))
}

// A line is the front panel's or a command. The errors that wait then; none where no other line is to be read.
pub fn take<F: Write + Seek + OpenFile>(
    rt: &(impl Print + Eprint),
    file: &mut Option<F>,
    pool: &mut [u8],
    setup: &mut [u8],
    queue: Queue,
    line: &[u8],
) -> io::Result<Option<Queue>> {
    if let [b'>', text @ ..] = line {
        crate::panel::take(rt, setup, text)?;
        return Ok(Some(queue));
    }
    obey(rt, file, pool, setup, queue, line)
}
