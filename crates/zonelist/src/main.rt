// zonelist (request A.14): reads one digit 1 to 8 and a line end, and prints every sound arrangement of a zone of so many cells; anything else is
// refusal 42. A third byte is read, so that longer input is refused.
#![tactic(auto)]

use std::io;

fn main(rt: HostRuntime) -> io::Result<()> {
    let mut input = [0u8; 3];
    let mut out = [0u8; 99555];
    let n = reading::read_full(&mut rt.reader(), &mut input)?;
    let k = arrangements::text(&input[0..n], &mut out);
    rt.write_all(&out[0..k])
}
