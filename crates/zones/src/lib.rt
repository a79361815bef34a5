// The pool's zones (01, "Cells and runs"): the search for free cells, the object at a cell address, as staged; and where its body lies.
#![tactic(auto)]

ghost use Rattle.std.specs.Prelude.{◌≡◌, ◌&&◌, ◌*◌, ◌<◌, leb, length};
ghost use Rattle.rules.specs.Shape.{pool_size, zone_cells};
ghost use Rattle.rules.specs.Zones.{head_at, walk_in};
ghost use Rattle.rules.specs.Plan.{search as search_from};
ghost use Rattle.stage.specs.Seen.{seen_by, Alone};
ghost use Rattle.layout.specs.Meaning.{shape_of};
ghost use Rattle.runs.specs.Taken.{walk_by};
ghost use Rattle.zones.specs.Body.{Within, look_in, look_of};
ghost use Rattle.zones.specs.Found.{found_of, NamesAt, SpotAt, ZoneIs};

use layout::{Pool, Shape};
use objects::Object;
use refusals::Refusal;
use runs::{Run, Spot, Zone};
use stage::View;

// A free run that fits: its zone, its first cell and its cells.
#[derive(Clone, Copy)]
pub struct Fit {
    pub zone: usize,
    pub cell: usize,
    pub cells: usize,
}

// A body: its place and length.
#[derive(Clone, Copy)]
pub struct Body {
    pub at: usize,
    pub length: usize,
}

// A free run of `k` cells or more.
fn fits(run: Run, k: usize) -> bool
    ensures { result ≡ (run.free && leb k run.cells) }
{
    run.free && k <= run.cells
}

// The zones of a pool, as staged.
#[derive(Clone, Copy)]
pub struct Zones<'a> {
    pub view: View<'a>,
    pub shape: Shape,
    pub ghost sized: { length view.pool.now ≡ pool_size (shape_of shape) },
}

impl<'a> Zones<'a> {
    // Those of the pool alone: no entries.
    pub fn committed(pool: &Pool<'a>) -> Zones<'a>
        ensures view { Alone pool.now.bytes.now result.view }
        ensures shape { result.shape ≡ pool.now.shape }
    {
        Zones {
            view: View::committed(pool.bytes),
            shape: pool.shape,
        }
    }

    // The zone `z`.
    pub fn zone(&self, z: usize) -> Zone<'a>
        requires { z < self.now.shape.zones }
        ensures { ZoneIs self.now.view (shape_of self.now.shape) z result }
    {
        Zone {
            view: self.view,
            from: self.shape.zone_at(z),
            cells: self.shape.cells(),
        }
    }

    // The zone `z`, as it is searched: where no target lies in it, the pool alone is read.
    fn searched(&self, z: usize) -> Zone<'a>
        requires { z < self.now.shape.zones }
        ensures { walk_by result ≡ walk_in (shape_of self.now.shape) (seen_by self.now.view) z }
    {
        let zone = self.zone(z);
        // Field by field: a struct with ghost fields takes no base.
        Zone {
            view: self.view.within(zone.from, 64 * zone.cells),
            from: zone.from,
            cells: zone.cells,
        }
    }

    // The lowest zone's lowest free run of `k` cells or more. Each zone is judged whole by the one walk that searches it; the first run that
    // fits leaves both loops, once the rest of its zone is judged. By the zone's number, of which the zone is made and which the fit tells.
    pub fn search(&self, k: usize) -> Result<Fit, Refusal>
        ensures { found_of result ≡ search_from (shape_of self.now.shape) (seen_by self.now.view) k 0 self.now.shape.zones }
    {
        let mut fit = Err(Refusal::NoRoom);
        'search: for z in 0..self.shape.zones {
            let zone = self.searched(z);
            for met in zone.runs() {
                let run = met.ok_or(Refusal::Broken)?;
                if fits(run, k) {
                    if !zone.whole_from(run.cell + run.cells, run.free) {
                        return Err(Refusal::Broken);
                    }
                    fit = Ok(Fit {
                        zone: z,
                        cell: run.cell,
                        cells: run.cells,
                    });
                    break 'search;
                }
            }
        }
        fit
    }

    // The cell at the cell address `a`, located in its zone; nothing is told of an address past the zones: `object_in` refuses it, whatever is handed in.
    pub fn spot_at(&self, a: usize) -> Option<Spot>
        ensures { SpotAt (shape_of self.now.shape) (seen_by self.now.view) a result }
    {
        let cells = self.shape.cells();
        if self.shape.zones * cells <= a {
            return None;
        }
        self.zone(a / cells).locate(a % cells)
    }

    // The object at the cell address `a`, located, or the first refusal of 5, 23, 24, 25.
    pub fn object_in(&self, a: usize, spot: Option<Spot>) -> Result<Object, Refusal>
        requires { SpotAt (shape_of self.now.shape) (seen_by self.now.view) a spot }
        ensures { NamesAt (shape_of self.now.shape) (seen_by self.now.view) a result }
    {
        let cells = self.shape.cells();
        if self.shape.zones * cells <= a {
            return Err(Refusal::Address);
        }
        let spot = spot.ok_or(Refusal::Broken)?;
        objects::in_zone(&self.zone(a / cells), a % cells, spot)
    }

    // The object at the cell address `a`, or the first refusal of 5, 23, 24, 25.
    pub fn object_at(&self, a: usize) -> Result<Object, Refusal>
        ensures { NamesAt (shape_of self.now.shape) (seen_by self.now.view) a result }
    {
        self.object_in(a, self.spot_at(a))
    }
}

// Where the head of the object at the cell address `a` lies.
pub fn head_at(s: Shape, a: usize) -> usize
    requires { a < s.zones * zone_cells (shape_of s) }
    ensures { result ≡ head_at (shape_of s) a }
{
    let cells = s.cells();
    s.zone_at(a / cells) + 64 * (a % cells)
}

// The body of the object at the cell address `a`, or the first refusal of 5, 23, 24, 25.
pub fn body_at(pool: &Pool, a: usize) -> Result<Body, Refusal>
    ensures { (look_of result ≡ look_in (shape_of pool.now.shape) pool.now.bytes.now a) × Within pool.now.bytes.now result }
{
    let object = Zones::committed(pool).object_at(a)?;
    Ok(Body {
        at: head_at(pool.shape, a) + 16,
        length: object.length,
    })
}
