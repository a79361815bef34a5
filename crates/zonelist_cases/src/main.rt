// What zonelist prints: for each number of cells its text by length and check, for inputs that it refuses the text, and what a short buffer
// holds. The expected output in `stdout` was worked out apart from this code.
#![tactic(auto)]

use std::io;

// The length and the check of the text for `input`.
fn measure(rt: &impl Print, input: &[u8]) -> io::Result<()> {
    let mut out = [0u8; 99555];
    let k = arrangements::text(input, &mut out);
    let check = sums::check(&out[0..k]);
    println!(rt; "{k} bytes, check {check:08x}")
}

// The text for `input`, under a name.
fn show(rt: &impl Print, name: &[u8], input: &[u8]) -> io::Result<()> {
    let mut out = [0u8; 99555];
    let k = arrangements::text(input, &mut out);
    rt.write_all(name)?;
    rt.write_all(b": ")?;
    rt.write_all(&out[0..k])
}

// The length of the text for `input`, and what the buffer `out` holds of it.
fn show_short(rt: &impl Print, input: &[u8], out: &mut [u8]) -> io::Result<()> {
    let k = arrangements::text(input, out);
    rt.print(k)?;
    rt.write_all(b" bytes, held: |")?;
    rt.write_all(out)?;
    rt.write_all(b"|\n")
}

fn show_lengths(rt: &impl Print) -> io::Result<()> {
    // The number is the digit itself, the input's first byte.
    for cells in b'1'..=b'8' {
        measure(rt, &[cells, b'\n'])?;
    }
    Ok(())
}

fn show_other_bytes(rt: &impl Print) -> io::Result<()> {
    show(rt, b"no bytes", b"")?;
    show(rt, b"0", b"0\n")?;
    show(rt, b"9", b"9\n")?;
    show(rt, b"colon", b":\n")?;
    show(rt, b"slash", b"/\n")?;
    show(rt, b"letter", b"a\n")?;
    show(rt, b"blank", b" \n")?;
    show(rt, b"byte 00", b"\x00\n")?;
    show(rt, b"byte ff", b"\xff\n")?;
    show(rt, b"two line feeds", b"\n\n")
}

fn show_other_ends(rt: &impl Print) -> io::Result<()> {
    show(rt, b"no line end", b"4")?;
    show(rt, b"line feed alone", b"\n")?;
    show(rt, b"carriage return and line feed", b"4\r\n")?;
    show(rt, b"carriage return", b"4\r")?;
    show(rt, b"byte 00 for a line end", b"4\x00")?;
    show(rt, b"two digits, no line end", b"44")?;
    show(rt, b"two digits", b"44\n")?;
    show(rt, b"zero before", b"04\n")?;
    show(rt, b"blank before", b" 4\n")?;
    show(rt, b"blank behind", b"4 \n")?;
    show(rt, b"sign", b"+4\n")?;
    show(rt, b"one more line feed", b"4\n\n")?;
    show(rt, b"one more line", b"4\n4\n")
}

// Buffers shorter than the text, of no bytes, and longer.
fn show_buffers(rt: &impl Print) -> io::Result<()> {
    let mut short = [46u8; 20];
    show_short(rt, b"4\n", &mut short)?;
    show_short(rt, b"4\n", &mut short[0..0])?;
    let mut shorter = [46u8; 12];
    show_short(rt, b"44", &mut shorter)?;
    let mut long = [46u8; 40];
    show_short(rt, b"1\n", &mut long)?;
    show_short(rt, b"1", &mut long)
}

fn main(rt: HostRuntime) -> io::Result<()> {
    show_lengths(&rt)?;
    show_other_bytes(&rt)?;
    show_other_ends(&rt)?;
    show_buffers(&rt)
}
