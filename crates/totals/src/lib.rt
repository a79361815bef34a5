// The totals under poolscan's lines (A.7): one pass over each zone's heads. Runs before a break count, and damaged objects too.
#![tactic(auto)]

ghost use Rattle.std.specs.Prelude.{◌≡◌, ◌+◌, ◌*◌, ◌<◌};
ghost use Rattle.stage.specs.Seen.{seen_by};
ghost use Rattle.layout.specs.Meaning.{shape_of};
ghost use Rattle.runs.specs.Taken.{walk_by};
ghost use Rattle.totals.specs.Totalled.{Added, LinesTotalled, Small, Totalled};

use layout::Pool;
use runs::{Run, Zone};
use zones::Zones;

// Objects, the bytes of their bodies, free cells.
#[derive(Clone, Copy, Default)]
pub struct Totals {
    pub objects: usize,
    pub bytes: usize,
    pub free: usize,
}

impl Totals {
    // No Add: it has a requires.
    fn plus(self, t: Totals) -> Totals
        requires { Small self.objects self.bytes self.free × Small t.objects t.bytes t.free }
        ensures { (result.objects ≡ self.objects + t.objects) × (result.bytes ≡ self.bytes + t.bytes) × (result.free ≡ self.free + t.free) }
    {
        Totals {
            objects: self.objects + t.objects,
            bytes: self.bytes + t.bytes,
            free: self.free + t.free,
        }
    }
}

// What a zone's run adds.
fn run_totals(zone: &Zone, run: Run) -> Totals
    requires { run.cell < zone.now.cells }
    ensures { Added (seen_by zone.now.view) (zone.now.from + 64 * run.cell) run.cells run.free result.objects result.bytes result.free }
{
    if run.free {
        return Totals {
            objects: 0,
            bytes: 0,
            free: run.cells,
        };
    }
    let h = zone.head(run.cell);
    Totals {
        objects: 1,
        bytes: h.body(),
        free: 0,
    }
}

// The totals of a zone.
fn zone_totals(zone: &Zone) -> Totals
    requires { zone.now.cells < 65536 }
    ensures { Totalled (walk_by zone.now) zone.now.cells result.objects result.bytes result.free }
{
    let mut totals = Totals::default();
    for met in zone.runs() {
        let Some(run) = met else {
            return totals;
        };
        totals = totals.plus(run_totals(zone, run));
    }
    totals
}

// The totals of all lines.
pub fn pool_totals(pool: &Pool) -> Totals
    ensures { LinesTotalled (shape_of pool.now.shape) pool.now.bytes.now result.objects result.bytes result.free }
{
    let zones = Zones::committed(pool);
    let mut totals = Totals::default();
    // By the zone's number, of which the zone is made.
    for z in 0..pool.shape.zones {
        totals = totals.plus(zone_totals(&zones.zone(z)));
    }
    totals
}
