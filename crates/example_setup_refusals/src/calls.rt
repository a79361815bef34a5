// Calls that print what they were asked and what they answer, and bytes changed.
use examples::memory::set;
use examples::report::{answer, refused};
use std::io;

// An object with this tag and body, allocated and committed.
pub fn store(rt: &impl Print, p: &mut [u8], tag: u32, body: &[u8]) -> io::Result<()> {
    let mut staging = [7u8; 2032];
    let n = body.len();
    print!(rt; "tag {tag}, body {n}")?;
    answer(rt, ": ", saving::save(p, &mut staging, tag, body))
}

// The lowest address, at or above `from`, of an object with this tag. What is matched is of other crates, where alone a `Display` could stand.
pub fn look_up(rt: &impl Print, p: &[u8], tag: u32, from: usize) -> io::Result<()> {
    print!(rt; "look-up {tag} from {from}")?;
    match pool::look_up(p, tag, from) {
        Ok(Some(address)) => println!(rt; ": address {address}"),
        Ok(None) => println!(rt; ": absent"),
        Err(refusal) => refused(rt, ": ", refusal.number()),
    }
}

// Another byte at this place.
pub fn change(rt: &impl Print, p: &mut [u8], at: usize, b: u8) -> io::Result<()> {
    set(p, at, b);
    println!(rt; "byte {at} changed")
}
