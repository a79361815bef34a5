// The table that the program `demo` prints: a row for each part of a commit, with what was counted over the power cuts in it.
ghost use Rattle.std.specs.Prelude.{⊤};

use std::io;
use std::ops::Add;

// What was counted over some cuts.
#[derive(Clone, Copy, Default)]
pub struct Tally {
    pub cuts: usize,
    pub old: usize,
    pub new: usize,
    pub done: usize,
    pub clean: usize,
}

impl Add for Tally {
    type Output = Tally;

    ghost can_add = { λ _ _. ⊤ };

    fn add(self, more: Tally) -> Tally {
        Tally {
            cuts: self.cuts.saturating_add(more.cuts),
            old: self.old.saturating_add(more.old),
            new: self.new.saturating_add(more.new),
            done: self.done.saturating_add(more.done),
            clean: self.clean.saturating_add(more.clean),
        }
    }
}

fn row(rt: &impl Print, name: &str, from: usize, to: usize, t: Tally) -> io::Result<()> {
    let Tally {
        cuts,
        old,
        new,
        done,
        clean,
    } = t;
    print!(rt; "{name}   {from:>4}   {to:>4}")?;
    println!(rt; "   {cuts:>4}   {old:>4}   {new:>4}   {done:>4}   {clean:>4}")
}

// The parts of the commit.
const PARTS: [&str; 5] = [
    "1 entries ",
    "2 seals   ",
    "3 data    ",
    "4 parity  ",
    "5 clearing",
];

// The table so far: the rows printed, the steps made up to the last row and by now, the counts since that row and in all.
#[derive(Clone, Copy)]
pub struct Table {
    rows: usize,
    from: usize,
    made: usize,
    tally: Tally,
    all: Tally,
}

impl Table {
    // Prints the heading.
    pub fn new(rt: &impl Print) -> io::Result<Table> {
        println!(rt; "part        from     to   cuts    old    new   done  clean")?;
        Ok(Table {
            rows: 0,
            from: 0,
            made: 0,
            tally: Tally::default(),
            all: Tally::default(),
        })
    }

    // Enters the counts before one more step; at a barrier, as the step's answer tells, the row of the part that it ends is printed.
    pub fn enter(&mut self, rt: &impl Print, now: Tally, barrier: bool) -> io::Result<()> {
        self.tally = self.tally + now;
        self.all = self.all + now;
        let made = self.made.saturating_add(1);
        if barrier && let Some(name) = PARTS.get(self.rows) {
            row(rt, name, self.from, self.made, self.tally)?;
            self.rows = self.rows.saturating_add(1);
            self.from = made;
            self.tally = Tally::default();
        }
        self.made = made;
        Ok(())
    }

    // Prints the last two rows, with the counts after the last step.
    pub fn end(self, rt: &impl Print, now: Tally) -> io::Result<()> {
        row(rt, "committed ", self.made, self.made, now)?;
        row(rt, "total     ", 0, self.made, self.all + now)
    }
}
