// terminal [FILE] (A.3): command lines typed in are obeyed, as they come, on the pool that FILE keeps, or on one in memory. A line that begins with
// `>` is the front panel: `>text` makes the text the present set-up, which *SAV stores and *RCL replaces, and `>` alone prints it.
#![tactic(auto)]

mod file; // the pool in its file
mod line; // a line taken: the front panel's or a command
mod panel; // the present set-up
mod steps; // recovery and commits, the file written at each barrier
mod typed; // lines as they come

use errors::Queue;
use refusals::Refusal;
use std::fs::{OpenFile, OpenOptions};
use std::io::{ErrorKind, Read, Seek, Write};
use std::rt::Files;
use std::{env, io};

// Reads a line and takes it. The errors that wait then; none where no other line is to be read.
fn turn<F: Write + Seek + OpenFile>(
    rt: &(impl Print + Eprint),
    input: &mut impl Read,
    file: &mut Option<F>,
    pool: &mut [u8],
    setup: &mut [u8],
    queue: Queue,
) -> io::Result<Option<Queue>> {
    let mut buf = [0u8; 256];
    match typed::read_line(input, &mut buf) {
        Some(line) => line::take(rt, file, pool, setup, queue, line),
        None => Ok(None),
    }
}

// Takes lines until the input ends. No run has as many lines as the loop may take.
fn talk<F: Write + Seek + OpenFile>(
    rt: &(impl Print + Eprint + Input),
    file: &mut Option<F>,
    pool: &mut [u8],
) -> io::Result<()> {
    let mut input = rt.reader();
    let mut setup = [b' '; 120];
    let mut queue = Queue::new();
    // By number, which alone tells that the loop ends: what comes is no items.
    for _ in 0..u64::MAX {
        match turn(rt, &mut input, file, pool, &mut setup, queue)? {
            Some(left) => queue = left,
            None => break,
        }
    }
    Ok(())
}

fn serve<F: Write + Seek + OpenFile>(
    rt: &(impl Print + Eprint + Input),
    file: &mut Option<F>,
    pool: &mut [u8],
) -> io::Result<()> {
    if steps::recover(rt, file, pool)? {
        talk(rt, file, pool)?;
    }
    Ok(())
}

// A fresh pool, with room for all ten set-ups. `examples::memory::fresh` is another: this program stands on no crate that is for the examples.
fn fresh() -> [u8; 7168] {
    let mut pool = [0u8; 7168];
    let _ = pool::format(&mut pool, 4, 2, 1, 1);
    pool
}

fn in_memory<R: Print + Eprint + Input + Files>(rt: &R) -> io::Result<()> {
    let mut pool = fresh();
    let mut file: Option<R::File> = None;
    serve(rt, &mut file, &mut pool)
}

fn in_new_file<R: Print + Eprint + Input + Files>(rt: &R, path: &str) -> io::Result<()> {
    let mut pool = fresh();
    match OpenOptions::new()
        .write(true)
        .create_new(true)
        .open(rt, path)
    {
        Ok(file) => {
            let mut file = Some(file);
            if file::keep(rt, &mut file, &pool) {
                serve(rt, &mut file, &mut pool)?;
            }
        }
        Err(error) => file::fail(rt, path, error),
    }
    Ok(())
}

// The pool that the file keeps; more than 65,536 bytes are refusal 2.
fn in_file<R: Print + Eprint + Input + Files>(rt: &R, mut file: R::File) -> io::Result<()> {
    let mut pool = [0u8; 65536];
    let Some(n) = reading::read_whole(&mut file, &mut pool)? else {
        return steps::refused(rt, Refusal::Length);
    };
    serve(rt, &mut Some(file), &mut pool[..n])
}

fn on_file<R: Print + Eprint + Input + Files>(rt: &R, path: &str) -> io::Result<()> {
    match OpenOptions::new().read(true).write(true).open(rt, path) {
        Ok(file) => in_file(rt, file),
        Err(error) if error.kind() == ErrorKind::NotFound => in_new_file(rt, path),
        Err(error) => {
            file::fail(rt, path, error);
            Ok(())
        }
    }
}

fn main(rt: HostRuntime) -> io::Result<()> {
    match env::args(&rt)?.nth(1) {
        None => in_memory(&rt),
        Some(path) => on_file(&rt, path.as_str()),
    }
}
