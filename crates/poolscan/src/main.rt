// poolscan (01, "Bench examples"): reads a pool of at most 65,536 bytes from standard input and prints its text; more is refusal 2.
#![tactic(auto)]

use std::io;

fn main(rt: HostRuntime) -> io::Result<()> {
    let mut input = rt.reader();
    let mut pool = [0u8; 65536];
    let mut out = [0u8; 65536];
    let Some(n) = reading::read_whole(&mut input, &mut pool)? else {
        return rt.write_all(b"(refused 2)\n");
    };
    // As `examples::report::scan` prints it: this program stands on the library's crates, and on none that are for the examples.
    let k = scan::text(&pool[0..n], &mut out);
    rt.write_all(&out[0..k])
}
