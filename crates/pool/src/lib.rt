// The public calls of the pool. None has a `requires`: each answers for all inputs, and its contract is one equation with the definition of
// that call, which gives the answer and every byte of the pool.
#![tactic(auto)]

ghost use Rattle.std.specs.Prelude.{◌≡◌, ℕ, ◌+◌, length};
ghost use Rattle.rules.specs.Shape.{pool_size};
ghost use Rattle.rules.specs.Format.{formatted, fresh_pool};
ghost use Rattle.rules.specs.Mend.{mended, mend_header};
ghost use Rattle.rules.specs.Repair.{repair as repair_call};
ghost use Rattle.rules.specs.Look.{look as looked, part, seen};
ghost use Rattle.rules.specs.Scrub.{scrub as scrubbed};
ghost use Rattle.rules.specs.Tag.{look_up};
ghost use Rattle.layout.specs.Meaning.{Shaped, shape_of};
ghost use Rattle.zones.specs.Body.{look_of, Within};
ghost use Rattle.pool.specs.Fill.{heads_from};
ghost use Rattle.pool.specs.Meaning.{changed, look_up_of, refusal_of, repaired_of, scrub_of};

use layout::Shape;
use refusals::Refusal;
use scrub::Counts;
use zones::Body;

// Makes a fresh pool of `zones` zones, each of `rows` data rows of `cols` pages, with the pool id `id`; or refusal 1 or 2.
pub fn format(
    pool: &mut [u8],
    rows: usize,
    cols: usize,
    zones: usize,
    id: u64,
) -> Result<(), Refusal>
    ensures { changed result pool.new ≡ formatted pool.old rows cols zones id }
{
    let s = Shape::new(rows, cols, zones)?;
    if id == 0 {
        return Err(Refusal::Shape);
    }
    if pool.len() != s.size() {
        return Err(Refusal::Length);
    }
    fill(pool, s, id);
    Ok(())
}

// The bytes of a fresh pool.
fn fill(pool: &mut [u8], s: Shape, id: u64)
    requires { length pool.old ≡ pool_size (shape_of s) }
    ensures { pool.new ≡ fresh_pool (shape_of s) id }
{
    pages::zero(pool);
    pages::put_header(pool, 0, s.rows, s.cols, s.zones, id);
    pages::put_header(pool, s.page, s.rows, s.cols, s.zones, id);
    fill_zones(pool, s);
}

// The head of one free run in each zone, and the same in its parity row.
fn fill_zones(pool: &mut [u8], s: Shape)
    requires { length pool.old ≡ pool_size (shape_of s) }
    ensures { pool.new ≡ heads_from (shape_of s) 0 s.zones pool.old }
{
    let cells = s.cells();
    let head = heads::free_head(cells);
    // By the zone's number, which gives its place: heads are stored meanwhile.
    for z in 0..s.zones {
        let at = s.zone_at(z);
        heads::put_head(pool, at, head);
        heads::put_head(pool, at + 64 * cells, head);
    }
}

// Copies the valid header over an invalid one, or the first of refusals 2, 3, 4, 2.
pub fn mend(pool: &mut [u8]) -> Result<(), Refusal>
    ensures { changed result pool.new ≡ mend_header pool.old }
{
    let s = layout::open(pool)?;
    copy_header(pool, s);
    Ok(())
}

fn copy_header(pool: &mut [u8], s: Shape)
    requires { Shaped pool.old (shape_of s) }
    ensures { pool.new ≡ mended pool.old }
{
    let page = s.page;
    let end = 2 * page;
    if !header::valid(&pool[0..page]) {
        pages::copy(pool, page, 0, page);
    } else if !header::valid(&pool[page..end]) {
        pages::copy(pool, 0, page, page);
    }
}

// Rebuilds the lost pages: `lost` has one mask a column, zone by zone; bit r means row r, bit R the parity row. Answers how many bytes that
// altered, or the first of refusals 2, 3, 4, 2, 21, 8, 28.
pub fn repair(pool: &mut [u8], lost: &[u16]) -> Result<usize, Refusal>
    ensures { repaired_of result pool.new ≡ repair_call pool.old lost.now }
{
    let opened = pool_log::quiet(pool)?;
    let s = opened.shape;
    if lost.len() != s.zones * s.cols || repair::any_above(s, lost) {
        return Err(Refusal::LossList);
    }
    if repair::any_two(lost) {
        return Err(Refusal::TwoLost);
    }
    Ok(repair::repair_pages(s, pool, lost))
}

// The part of the pool that holds the body of the object at the cell address `address`, or the first of refusals 2, 3, 4, 2, 21, 5, 23, 24, 25.
pub fn look_for(pool: &[u8], address: usize) -> Result<Body, Refusal>
    ensures { (look_of result ≡ looked pool.now address) × Within pool.now result }
{
    let pool = pool_log::quiet(pool)?;
    zones::body_at(&pool, address)
}

// Why look hands out an empty part: the refusal's number, or 0 (01: an empty part means refused, a companion answer gives the number).
pub fn look_refusal(pool: &[u8], address: usize) -> u8
    ensures { result ≡ refusal_of (looked pool.now address) }
{
    refusals::number_or_0(look_for(pool, address))
}

// The body of the object at the cell address `address`, in the pool itself; an empty part if it is refused.
pub fn look(pool: &[u8], address: usize) -> &[u8]
    ensures { (result.now ≡ seen pool.now (looked pool.now address)) × ((at n : ℕ) → looked pool.now address ≡ part at n → result.ref_ptr ≡ (pool.entry.ref_ptr.0, pool.entry.ref_ptr.1 + at)) }
{
    match look_for(pool, address) {
        Ok(body) => &pool[body.at..body.at + body.length],
        Err(_) => &pool[0..0],
    }
}

// The lowest address, at or above `from`, of an object with this tag, if there is one; or the first of refusals 2, 3, 4, 2, 21, 23. Damage
// hides no tag.
pub fn look_up(pool: &[u8], tag: u32, from: usize) -> Result<Option<usize>, Refusal>
    ensures { look_up_of result ≡ look_up pool.now tag from }
{
    let pool = pool_log::quiet(pool)?;
    tags::look_up(&pool, tag, from)
}

// Scans the pool: objects met, damaged ones, broken zones, columns with wrong parity; or the first of refusals 2, 3, 4, 2, 21.
pub fn scrub(pool: &[u8]) -> Result<Counts, Refusal>
    ensures { scrub_of result ≡ scrubbed pool.now }
{
    let pool = pool_log::quiet(pool)?;
    Ok(scrub::count_pool(&pool))
}
