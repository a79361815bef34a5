// The text that poolscan prints (01, "Bench examples"; A.7), put into a buffer.
#![tactic(auto)]

ghost use Rattle.std.specs.Prelude.{◌≡◌, false, ◌+◌, ◌*◌, ◌<◌, ◌≤◌, length};
ghost use Rattle.std.proofs.lemmas.List.Edits.{sets};
ghost use Rattle.rules.specs.Runs.{free};
ghost use Rattle.rules.specs.Scan.{broken_line, poolscan, pool_text, run_line, total_text, zones_text};
ghost use Rattle.refusals.specs.Number.{number_of};
ghost use Rattle.stage.specs.Seen.{seen_by};
ghost use Rattle.layout.specs.Meaning.{shape_of};
ghost use Rattle.runs.specs.Taken.{walk_by};
ghost use Rattle.scrub.specs.Counted.{ObjectThere};
ghost use Rattle.totals.specs.Totalled.{Small};
ghost use Rattle.texts.specs.Adds.{Adds};
ghost use Rattle.scan.specs.Lined.{count_lines, object_line, refused_text, Room, run_of, zone_text};

use layout::Pool;
use refusals::Refusal;
use runs::{Run, Zone};
use texts::Text;
use totals::Totals;
use zones::Zones;

// The line of a free run of `n` cells at cell `c` of zone `z`.
fn put_free(text: &mut Text, z: usize, c: usize, n: usize)
    requires { Room text.old.at z c × (n < 65536) }
    ensures { Adds 64 text.old (run_line z c (free n)) text.new }
{
    text.put_pair(b"(run ", z, c);
    text.put_between(b" (free ", n, b"))\n");
}

// The line of an object with a body of `m` bytes; good or bad is one word of it, and chooses no value.
fn put_object(text: &mut Text, z: usize, c: usize, tag: u32, m: usize, good: bool)
    requires { Room text.old.at z c × (m < 4294967296) }
    ensures { Adds 64 text.old (object_line z c tag m good) text.new }
{
    text.put_pair(b"(run ", z, c);
    text.put_pair(b" (object ", tag as usize, m);
    if good {
        text.put_bytes(b" good))\n")
    } else {
        text.put_bytes(b" bad))\n")
    }
}

// The line of zone `z`, broken from cell `c` on.
fn put_broken(text: &mut Text, z: usize, c: usize)
    requires { Room text.old.at z c }
    ensures { Adds 64 text.old (broken_line z c) text.new }
{
    text.put_pair(b"(broken ", z, c);
    text.put_bytes(b")\n");
}

// The line of a run of zone `z`.
fn put_run(zone: &Zone, text: &mut Text, z: usize, run: Run)
    requires { Room text.old.at z run.cell × (run.cell < zone.now.cells) × (run.cells < 65536) × (run.free ≡ false → ObjectThere (seen_by zone.now.view) (zone.now.from + 64 * run.cell)) }
    ensures { Adds 64 text.old (run_line z run.cell (run_of zone.now run)) text.new }
{
    if run.free {
        return put_free(text, z, run.cell, run.cells);
    }
    let h = zone.head(run.cell);
    let good = objects::intact(&zone.view, h, zone.place_of(run.cell));
    put_object(text, z, run.cell, h.tag(), h.body(), good);
}

// The lines of zone `z`: one for each run before a break, and one for the break.
fn put_zone(zone: &Zone, text: &mut Text, z: usize)
    requires { (text.old.at + 64 * zone.now.cells + 64 < 4294967296) × (z < 65536) × (zone.now.cells < 65536) }
    ensures { Adds (64 * zone.now.cells) text.old (zone_text (walk_by zone.now) z) text.new }
{
    let mut cell = 0;
    for met in zone.runs() {
        let Some(run) = met else {
            return put_broken(text, z, cell);
        };
        put_run(zone, text, z, run);
        cell = run.cell + run.cells;
    }
}

// The lines of all zones.
fn put_zones(pool: &Pool, text: &mut Text)
    requires { (text.old.at ≤ 64) × (length pool.now.bytes.now ≤ 65536) }
    ensures { Adds 60928 text.old (zones_text (shape_of pool.now.shape) pool.now.bytes.now 0 pool.now.shape.zones) text.new }
{
    let zones = Zones::committed(pool);
    // By the zone's number, which its lines print.
    for z in 0..pool.shape.zones {
        put_zone(&zones.zone(z), text, z);
    }
}

// The line of the totals.
fn put_total(text: &mut Text, t: Totals)
    requires { (text.old.at ≤ 65536) × Small t.objects t.bytes t.free }
    ensures { Adds 66 text.old (total_text t.objects t.bytes t.free) text.new }
{
    text.put_between(b"(total (objects ", t.objects, b")");
    text.put_between(b" (bytes ", t.bytes, b")");
    text.put_between(b" (free ", t.free, b"))\n");
}

// The two lines behind the zones: columns with wrong parity, and the totals.
fn put_counts(pool: &Pool, text: &mut Text)
    requires { text.old.at ≤ 61000 }
    ensures { Adds 93 text.old (count_lines (shape_of pool.now.shape) pool.now.bytes.now) text.new }
{
    let wrong = parity::wrong_columns(pool);
    text.put_between(b"(columns (off ", wrong, b"))\n");
    put_total(text, totals::pool_totals(pool));
}

// The text of a pool.
fn put_pool(pool: &Pool, text: &mut Text)
    requires { (text.old.at ≡ 0) × (length pool.now.bytes.now ≤ 65536) }
    ensures { Adds 65536 text.old (pool_text (shape_of pool.now.shape) pool.now.bytes.now) text.new }
{
    let s = pool.shape;
    text.put_pair(b"(pool ", s.rows, s.cols);
    text.put_between(b" ", s.zones, b")\n");
    put_zones(pool, text);
    put_counts(pool, text);
}

// The line of a refusal.
fn put_refused(text: &mut Text, refusal: Refusal)
    requires { text.old.at ≡ 0 }
    ensures { Adds 21 text.old (refused_text (number_of refusal)) text.new }
{
    text.put_between(b"(refused ", usize::from(refusal.number()), b")\n");
}

// The pool's lines, or that of its refusal.
fn put_scan(pool: &[u8], text: &mut Text)
    requires { text.old.at ≡ 0 }
    ensures { Adds 65536 text.old (poolscan pool.now) text.new }
{
    if 65536 < pool.len() {
        return put_refused(text, Refusal::Length);
    }
    match pool_log::quiet(pool) {
        Ok(opened) => put_pool(&opened, text),
        Err(refusal) => put_refused(text, refusal),
    }
}

// What poolscan prints for `pool`, stored from the front of `out` on as far as it has room; the text's length, at most 65,536.
#[tactic(auto, using(texts::proofs::Adds::put_whole))]
pub fn text(pool: &[u8], out: &mut [u8]) -> usize
    ensures value { (result ≡ length (poolscan pool.now)) × (out.new ≡ sets out.old 0 (poolscan pool.now)) }
    ensures most { result ≤ 65536 }
{
    let mut text = Text::new(out);
    put_scan(pool, &mut text);
    text.length()
}
