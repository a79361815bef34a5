// The pool in its file, which is written at each barrier: a program that ends in between leaves the pool as a power cut may leave it.
use std::fs::OpenFile;
use std::io;
use std::io::{Seek, SeekFrom, Write};

// Writes the pool at the file's start and waits until it is there.
fn written<F: Write + Seek + OpenFile>(file: &mut F, pool: &[u8]) -> io::Result<()> {
    file.seek(SeekFrom::Start(0))?;
    file.write_all(pool)?;
    file.sync_data()
}

// Says on standard error what failed.
pub fn fail(rt: &impl Eprint, what: &str, error: io::Error) {
    let _ = rt.eprintln(format_args!("{what}: {error}"));
}

// Keeps the pool in its file, where it has one. False if a call failed, which is said on standard error.
pub fn keep<F: Write + Seek + OpenFile>(
    rt: &impl Eprint,
    file: &mut Option<F>,
    pool: &[u8],
) -> bool {
    match file {
        None => true,
        Some(file) => match written(file, pool) {
            Ok(()) => true,
            Err(error) => {
                fail(rt, "terminal", error);
                false
            }
        },
    }
}
