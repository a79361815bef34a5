// The counts of scrub (01, "Repair and scrub"), over committed bytes. 01's scrub is an integrity scan.
#![tactic(auto)]

ghost use Rattle.std.specs.Prelude.{◌≡◌, false, ◌+◌, ◌*◌, ◌<◌};
ghost use Rattle.stage.specs.Seen.{seen_by};
ghost use Rattle.layout.specs.Meaning.{shape_of};
ghost use Rattle.runs.specs.Taken.{walk_by};
ghost use Rattle.scrub.specs.Counted.{damaged_at, Counted, ObjectThere, Tallied};

use layout::Pool;
use runs::{Run, Zone};
use zones::Zones;

// What the walk over a zone met: objects, damaged ones, and whether the zone is unbroken. No Result: what stands before a break counts too.
#[derive(Clone, Copy)]
struct Tally {
    objects: usize,
    damaged: usize,
    whole: bool,
}

// Objects met, damaged ones, broken zones, columns with wrong parity.
#[derive(Clone, Copy)]
pub struct Counts {
    pub objects: usize,
    pub damaged: usize,
    pub broken: usize,
    pub columns: usize,
}

// Whether a zone's run is a damaged object.
fn is_damaged(zone: &Zone, run: Run) -> bool
    requires { (run.cell < zone.now.cells) × (run.free ≡ false → ObjectThere (seen_by zone.now.view) (zone.now.from + 64 * run.cell)) }
    ensures { result ≡ damaged_at (seen_by zone.now.view) (zone.now.from + 64 * run.cell) run.free }
{
    if run.free {
        return false;
    }
    let head = zone.head(run.cell);
    !objects::intact(&zone.view, head, zone.place_of(run.cell))
}

// One pass over a zone: runs before a break count.
fn count_zone(zone: &Zone) -> Tally
    ensures { Tallied (walk_by zone.now) zone.now.cells result.objects result.damaged result.whole }
{
    let mut objects = 0;
    let mut damaged = 0;
    for met in zone.runs() {
        let Some(run) = met else {
            return Tally {
                objects,
                damaged,
                whole: false,
            };
        };
        objects += usize::from(!run.free);
        damaged += usize::from(is_damaged(zone, run));
    }
    Tally {
        objects,
        damaged,
        whole: true,
    }
}

// The four counts.
pub fn count_pool(pool: &Pool) -> Counts
    ensures { Counted (shape_of pool.now.shape) pool.now.bytes.now result.objects result.damaged result.broken result.columns }
{
    let zones = Zones::committed(pool);
    let mut objects = 0;
    let mut damaged = 0;
    let mut broken = 0;
    // By the zone's number, of which the zone is made.
    for z in 0..pool.shape.zones {
        let tally = count_zone(&zones.zone(z));
        objects += tally.objects;
        damaged += tally.damaged;
        broken += usize::from(!tally.whole);
    }
    Counts {
        objects,
        damaged,
        broken,
        columns: parity::wrong_columns(pool),
    }
}
