// The look-up by tag (A.1) in a pool of a known shape, over committed bytes. It reads heads only: damage hides no tag.
#![tactic(auto)]

ghost use Rattle.std.specs.Prelude.{◌≡◌, ◌+◌, ◌*◌, ◌≤◌, ◌<◌};
ghost use Rattle.stage.specs.Seen.{seen_by};
ghost use Rattle.layout.specs.Meaning.{shape_of};
ghost use Rattle.runs.specs.Taken.{walk_by};
ghost use Rattle.tags.specs.Found.{hit_if, hit_of, hits_from, hits_of, look_up_in, slot_of, tagged_at};

use layout::Pool;
use refusals::Refusal;
use runs::{Run, Zone};
use zones::Zones;

// Whether a zone's run is an object with this tag.
fn tag_is(zone: &Zone, run: Run, tag: u32) -> bool
    requires { run.cell < zone.now.cells }
    ensures { result ≡ tagged_at (seen_by zone.now.view) (zone.now.from + 64 * run.cell) run.free tag }
{
    if run.free {
        return false;
    }
    zone.head(run.cell).tag() == tag
}

// The address of a zone's run, if that is an object with this tag and the address is at or above `from`.
fn hit_at(zone: &Zone, run: Run, base: usize, tag: u32, from: usize) -> Option<usize>
    requires { (run.cell < zone.now.cells) × (base + zone.now.cells ≤ 1048576) }
    ensures { slot_of result ≡ hit_if (tagged_at (seen_by zone.now.view) (zone.now.from + 64 * run.cell) run.free tag) (base + run.cell) from }
{
    let address = base + run.cell;
    if from <= address && tag_is(zone, run, tag) {
        return Some(address);
    }
    None
}

// One pass over a zone whose first cell has the address `base`, to its end also behind a hit: the hit before, or the first in the zone.
fn scan_zone(
    zone: &Zone,
    base: usize,
    tag: u32,
    from: usize,
    before: Option<usize>,
) -> Result<Option<usize>, Refusal>
    requires { base + zone.now.cells ≤ 1048576 }
    ensures { hits_of result ≡ hits_from tag from (slot_of before) base (walk_by zone.now) }
{
    let mut hit = before;
    for met in zone.runs() {
        let run = met.ok_or(Refusal::Broken)?;
        hit = hit.or(hit_at(zone, run, base, tag, from));
    }
    Ok(hit)
}

// The lowest address, at or above `from`, of an object with this tag. Each zone is judged to its end.
pub fn look_up(pool: &Pool, tag: u32, from: usize) -> Result<Option<usize>, Refusal>
    ensures { hit_of result ≡ look_up_in (shape_of pool.now.shape) pool.now.bytes.now tag from }
{
    let zones = Zones::committed(pool);
    let mut hit = None;
    // By the zone's number, which gives its first address too.
    for z in 0..pool.shape.zones {
        let zone = zones.zone(z);
        hit = scan_zone(&zone, z * zone.cells, tag, from, hit)?;
    }
    Ok(hit)
}
