// Lines, and what they ask for.
use lines::Command;
use std::io;

// The line between bars, and its reading: no `Display`, which `Command`, a type of `lines`, can have there alone.
fn reading(rt: &impl Print, line: &[u8]) -> io::Result<()> {
    rt.write_all(b"|")?;
    rt.write_all(line)?;
    rt.write_all(b"| ")?;
    match lines::read(line) {
        Ok(Command::Nothing) => println!(rt; "nothing"),
        Ok(Command::Save(n)) => println!(rt; "save {n}"),
        Ok(Command::Recall(n)) => println!(rt; "recall {n}"),
        Ok(Command::Query) => println!(rt; "query"),
        Err(error) => {
            let n = u16::from(error);
            println!(rt; "-{n}")
        }
    }
}

fn readings(rt: &impl Print, lines: &[&str]) -> io::Result<()> {
    for line in lines {
        reading(rt, line.as_bytes())?;
    }
    Ok(())
}

// A line of `n` bytes that recalls 5, with zeros before it.
fn zeros(rt: &impl Print, n: usize) -> io::Result<()> {
    let mut line =
        *b"*RCL 0000000000000000000000000000000000000000000000000000000000000000000000000000";
    if 0 < n && n <= line.len() {
        line[n - 1] = b'5';
        reading(rt, &line[..n])?;
    }
    Ok(())
}

pub fn commands(rt: &impl Print) -> io::Result<()> {
    readings(rt, &["", "*SAV 3", "*sAv 003", "*rcl 0", "*RCL 9"])?;
    zeros(rt, 80)?;
    zeros(rt, 81)
}

pub fn errors(rt: &impl Print) -> io::Result<()> {
    let lines = [
        "*SAV",
        "*SAV ",
        "*SAV  3",
        "*SAV 3 ",
        "*SAV -1",
        "*SAV 12a",
        "*SAV 3\r",
        "*RCL 10",
        "*SAV 99999999999999999999",
    ];
    readings(rt, &lines)
}

pub fn undefined(rt: &impl Print) -> io::Result<()> {
    let lines = [
        "*SAV3",
        "*SAVE 3",
        " *SAV 3",
        " ",
        "JSAV 3",
        "*SAV\t3",
        "SYSTZERR_",
        "SYSTE:ERR?",
        ":SYST:ERR?",
        "SYST:ERR",
        "SYST:ERR? ",
    ];
    readings(rt, &lines)
}

pub fn queries(rt: &impl Print) -> io::Result<()> {
    let lines = ["SYST:ERR?", "system:error?", "SYSTem:ERR?", "SYST:ERROR?"];
    readings(rt, &lines)
}
