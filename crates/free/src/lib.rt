// Free (01, "Transactions"): the run joined with its free neighbours, and its head touched.
#![tactic(auto)]

ghost use Rattle.std.specs.Prelude.{◌≡◌};
ghost use Rattle.rules.specs.Plan.{release};
ghost use Rattle.layout.specs.Meaning.{shape_of};
ghost use Rattle.stage.specs.Seen.{seen_by};
ghost use Rattle.answers.specs.Planned.{left_of, planned, Judged};
ghost use Rattle.free.specs.Freed.{FreedAt};

use answers::{Answer, Staged};
use layout::{Pool, Shape};
use refusals::Refusal;
use stage::View;
use zones::Zones;

// A free run: where it begins, and its cells.
#[derive(Clone, Copy)]
struct FreeRun {
    at: usize,
    cells: usize,
}

// The free run that the object at the cell address `a` becomes, joined with its free neighbours; or the first refusal of 5, 23, 24, 25.
fn freed(zones: &Zones, a: usize) -> Result<FreeRun, Refusal>
    ensures { FreedAt (shape_of zones.now.shape) (seen_by zones.now.view) a result }
{
    let found = zones.spot_at(a);
    zones.object_in(a, found)?;
    // An object was found, so its zone is whole and a run begins at its cell.
    let spot = found.unwrap();
    let run = spot.run.unwrap();
    let cells = zones.shape.cells();
    let zone = zones.zone(a / cells);
    let place = zone.joined(a % cells, spot.prior, run);
    Ok(FreeRun {
        at: zone.from + 64 * place.cell,
        cells: place.count,
    })
}

// Frees the object at the cell address `a`: the first refusal of 5, 23, 24, 25, 27, or taken. The words are counted before any is stored.
#[inline(never)] // so that its stack is not held while the record is judged
pub fn free(pool: &Pool, staging: &mut [u8], count: usize, a: usize) -> Result<Staged, Refusal>
    requires { Judged (shape_of pool.now.shape) pool.now.bytes.now staging.old count }
    ensures { left_of count result staging.new ≡ planned (shape_of pool.now.shape) pool.now.bytes.now staging.old count (release a) }
{
    let mut index = [0; stage::INDEX];
    stage::fill_index(&mut index, staging, count);
    let zones = Zones {
        view: View {
            pool: pool.bytes,
            staging,
            index: &index,
            count,
        },
        shape: pool.shape,
    };
    let free = freed(&zones, a)?;
    let at = free.at as u64;
    let added = zones.view.fresh_words(at, 2);
    if Shape::ENTRIES < count + added {
        return Err(Refusal::TooMany);
    }
    let h = heads::free_head(free.cells);
    let n = stage::touch_head(staging, count, at, h.first, h.second, added == 2);
    Ok(Staged {
        answer: Answer::Taken,
        count: n,
    })
}
