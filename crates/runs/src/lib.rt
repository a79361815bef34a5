// The walk over a zone's runs (01, "Cells and runs") as staged: judged whole, and a run found by its cell.
#![tactic(auto)]

ghost use Rattle.std.specs.Prelude.{◌≡◌, ◌+◌, ◌*◌, ◌≤◌, ◌<◌};
ghost use Rattle.stage.specs.Seen.{seen_by};
ghost use Rattle.stage.specs.View.{part};
ghost use Rattle.heads.specs.HeadWords.{head_of};
ghost use Rattle.runs.specs.Rest.{rest_of, walk_on, Meets, Zoned};
ghost use Rattle.runs.specs.Spotted.{free_of, Joined, Lead, Located, Stands};

use heads::Head;
use stage::View;

// A zone as staged: where its data bytes start, and its cells.
#[derive(Clone, Copy)]
pub struct Zone<'a> {
    pub view: View<'a>,
    pub from: usize,
    pub cells: usize,
    pub ghost zoned: { Zoned view.pool.now from cells },
}

// A run that was met: its first cell, its cells, and whether it is free. Free or an object: the only two kinds; both have all other fields.
// It does not hold its zone, which is ten words long: where both are given, a clause says that it lies there.
#[derive(Clone, Copy)]
pub struct Run {
    pub cell: usize,
    pub cells: usize,
    pub free: bool,
}

// A cell of an unbroken zone: the free cells right before it, and the run that begins there.
#[derive(Clone, Copy)]
pub struct Spot {
    pub prior: usize,
    pub run: Option<Run>,
}

// Some cells of a zone: the first, and how many. No Range: that is not Copy, and the number is what the callers ask for.
#[derive(Clone, Copy)]
pub struct Place {
    pub cell: usize,
    pub count: usize,
}

impl Run {
    // Its free cells.
    fn free_cells(self) -> usize
        ensures { result ≡ free_of self.cells self.free }
    {
        if self.free { self.cells } else { 0 }
    }
}

impl<'a> Zone<'a> {
    ghost use Rattle.std.specs.Prelude.{false};
    ghost use Rattle.runs.specs.Taken.{runs_on};

    // Where cell `cell` begins.
    pub fn place_of(&self, cell: usize) -> usize
        requires { cell < self.now.cells }
        ensures { result ≡ self.now.from + 64 * cell }
    {
        prove!(cell < self.cells);
        self.from + 64 * cell
    }

    // The head at cell `cell`.
    pub fn head(&self, cell: usize) -> Head
        requires { cell < self.now.cells }
        ensures { head_of result.first result.second ≡ part 16 (self.now.from + 64 * cell) (seen_by self.now.view) }
    {
        heads::read_head(&self.view, self.place_of(cell))
    }

    // The run at cell `cell`, behind a free run or not; none where the zone is broken there.
    #[inline(always)] // as `next`, which a walk makes at each run
    pub fn meet(&self, cell: usize, after: bool) -> Option<Run>
        requires { cell < self.now.cells }
        ensures { Meets (seen_by self.now.view) self.now.from self.now.cells cell after result }
    {
        let h = self.head(cell);
        let cells = h.cells();
        if self.cells - cell < cells {
            return None;
        }
        if h.free_ok() {
            if after {
                return None;
            }
            return Some(Run {
                cell,
                cells,
                free: true,
            });
        }
        if h.object_ok() {
            return Some(Run {
                cell,
                cells,
                free: false,
            });
        }
        None
    }

    // The runs from cell `cell` on, behind a free run or not.
    pub fn runs_from(&self, cell: usize, after: bool) -> Runs<'a>
        ensures { result ≡ runs_on self.now cell after }
    {
        Runs {
            zone: *self,
            cell,
            after,
        }
    }

    // The runs from the first cell on.
    pub fn runs(&self) -> Runs<'a>
        ensures { result ≡ runs_on self.now 0 false }
    {
        self.runs_from(0, false)
    }

    // Whether the zone is unbroken from cell `from` on, behind a free run or not.
    pub fn whole_from(&self, from: usize, behind: bool) -> bool
        requires { from ≤ self.now.cells }
        ensures { result ≡ (walk_on behind (rest_of (seen_by self.now.view) self.now.from self.now.cells from)).whole }
    {
        self.runs_from(from, behind).all(|met| met.is_some())
    }

    // The run that begins at cell `a`, if one does; none where the zone is broken: the same walk judges it whole.
    pub fn locate(&self, a: usize) -> Option<Spot>
        requires { a < self.now.cells }
        ensures { Located (seen_by self.now.view) self.now.from self.now.cells a result }
    {
        let mut spot = Spot {
            prior: 0,
            run: None,
        };
        let mut prior = 0;
        for met in self.runs() {
            let run = met?;
            if run.cell == a {
                spot = Spot {
                    prior,
                    run: Some(run),
                };
            }
            prior = run.free_cells();
        }
        Some(spot)
    }

    // The free cells from cell `c` on.
    fn lead(&self, c: usize, after: bool) -> usize
        requires { c ≤ self.now.cells }
        ensures { Lead (seen_by self.now.view) self.now.from self.now.cells c after result }
    {
        if self.cells <= c {
            return 0;
        }
        self.meet(c, after).map_or(0, |run| run.free_cells())
    }

    // The run at cell `a`, with `prior` free cells right before it, joined with the free runs before and behind it.
    pub fn joined(&self, a: usize, prior: usize, run: Run) -> Place
        requires { Stands (seen_by self.now.view) self.now.from self.now.cells a prior run.cells run.free }
        ensures { Joined (seen_by self.now.view) self.now.from self.now.cells a result.cell result.count }
    {
        let behind = self.lead(a + run.cells, run.free);
        Place {
            cell: a - prior,
            count: prior + (run.cells + behind),
        }
    }
}

// A zone's runs from a cell on, behind a free run or not: each run that is met, or none where the zone is broken, and nothing behind it.
#[derive(Drop)]
pub struct Runs<'a> {
    pub zone: Zone<'a>,
    pub cell: usize,
    // Whether the run before was free: a free run may not follow one.
    pub after: bool,
}

impl Iterator for Runs<'_> {
    ghost use Rattle.std.specs.Prelude.{◌-◌};
    ghost use Rattle.std.specs.Iterator.{at_most};
    ghost use Rattle.runs.specs.Taken.{Gives};

    type Item = Option<Run>;

    ghost next_gives = { Gives };

    ghost remaining = { λ s. at_most (s.zone.cells - s.cell) };

    #[inline(always)] // else a walk hands each run on through memory; so is `meet`
    fn next(&mut self) -> Option<Option<Run>> {
        if self.zone.cells <= self.cell {
            return None;
        }
        let met = self.zone.meet(self.cell, self.after);
        match met {
            Some(run) => {
                self.cell += run.cells;
                self.after = run.free;
            }
            None => self.cell = self.zone.cells,
        }
        Some(met)
    }
}
