// The front panel: the present set-up, and the lines that set it and print it.
use std::io;

// Makes `text` the present set-up, filled up with blanks, cut where the set-up ends.
pub fn set(setup: &mut [u8], text: &[u8]) {
    let n = usize::min(text.len(), setup.len());
    setup[..n].copy_from_slice(&text[..n]);
    setup[n..].fill(b' ');
}

// Prints the set-up without its trailing blanks.
fn show(rt: &impl Print, setup: &[u8]) -> io::Result<()> {
    let last = setup.iter().rposition(|&b| b != b' ');
    let n = last.map_or(0, |last| last + 1);
    rt.write_all(&setup[..n])?;
    rt.write_all(b"\n")
}

// Takes what follows the `>` of a line of the front panel.
pub fn take(rt: &impl Print, setup: &mut [u8], text: &[u8]) -> io::Result<()> {
    if text.is_empty() {
        return show(rt, setup);
    }
    set(setup, text);
    Ok(())
}
