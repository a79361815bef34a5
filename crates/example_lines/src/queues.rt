// Errors entered and asked for, by command lines on a pool that is not there.
use commands::Done;
use errors::Queue;
use std::io;

// Obeys a line, and prints what it prints; the queue then.
fn obey(rt: &impl Print, line: &[u8], queue: Queue) -> io::Result<Queue> {
    let mut out = [0u8; 32];
    let obeyed = commands::obey(line, &[0; 120], queue, &[], &mut [], &mut out);
    if let Done::Printed(n) = obeyed.done
        && let Some(printed) = out.get(..n)
    {
        rt.write_all(printed)?;
    }
    Ok(obeyed.queue)
}

// The same line eleven times.
fn eleven(rt: &impl Print, line: &[u8], queue: Queue) -> io::Result<Queue> {
    (0..11).try_fold(queue, |queue, _| obey(rt, line, queue))
}

// Eleven errors, and eleven queries.
pub fn overflow(rt: &impl Print) -> io::Result<()> {
    let full = eleven(rt, b"*IDN?", Queue::new())?;
    eleven(rt, b"SYST:ERR?", full)?;
    Ok(())
}

// Eleven errors, and one that is none of the six: both queues count as empty, and an error then stands first.
pub fn unfit(rt: &impl Print) -> io::Result<()> {
    let many = Queue {
        errors: [113; 10],
        count: 11,
    };
    let other = Queue {
        errors: [999; 10],
        count: 1,
    };
    obey(rt, b"SYST:ERR?", many)?;
    obey(rt, b"SYST:ERR?", other)?;
    let entered = obey(rt, b"*RCL 3", other)?;
    obey(rt, b"SYST:ERR?", entered)?;
    Ok(())
}
