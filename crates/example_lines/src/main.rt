// Command lines (A.3): the reading of each line, and the queue of errors. What is printed is compared with the stored values in `stdout`, which
// were worked out apart from this code.
#![tactic(auto)]

mod readings; // lines, and what they ask for
mod queues; // errors entered and asked for

use std::io;

fn main(rt: HostRuntime) -> io::Result<()> {
    readings::commands(&rt)?;
    readings::errors(&rt)?;
    readings::undefined(&rt)?;
    readings::queries(&rt)?;
    queues::overflow(&rt)?;
    queues::unfit(&rt)
}
