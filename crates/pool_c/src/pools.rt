// The calls on the pool alone.
ghost use Rattle.std.specs.Prelude.{◌≡◌};
ghost use Rattle.rules.specs.Check.{check as check_of};
ghost use Rattle.rules.specs.Format.{formatted};
ghost use Rattle.rules.specs.Look.{look as looked};
ghost use Rattle.rules.specs.Mend.{mend_header};
ghost use Rattle.rules.specs.Repair.{repair as repair_call};
ghost use Rattle.rules.specs.Scrub.{scrub as scrubbed};
ghost use Rattle.zones.specs.Body.{look_of};
ghost use Rattle.pool.specs.Meaning.{repair_of, scrub_of};
ghost use Rattle.pool_c.specs.Meaning.{changed_out, counts_out, part_out, repair_out, repaired_out};

use refusals::Refusal;
use zones::Body;

// How many bytes repair altered; or the refusal, and 0.
#[repr(C)]
#[derive(Clone, Copy)]
pub struct Repaired {
    pub refusal: usize,
    pub altered: usize,
}

// The part of the pool that holds a body; or the refusal, and zeros.
#[repr(C)]
#[derive(Clone, Copy)]
pub struct Part {
    pub refusal: usize,
    pub offset: usize,
    pub length: usize,
}

// What scrub counts; or the refusal, and zeros.
#[repr(C)]
#[derive(Clone, Copy)]
pub struct Counts {
    pub refusal: usize,
    pub objects: usize,
    pub damaged: usize,
    pub broken: usize,
    pub columns: usize,
}

impl From<Result<usize, Refusal>> for Repaired {
    ghost from_gives = { λ r out. out ≡ repair_out (repair_of r) };

    fn from(r: Result<usize, Refusal>) -> Repaired {
        match r {
            Ok(altered) => Repaired {
                refusal: 0,
                altered,
            },
            Err(refusal) => Repaired {
                refusal: usize::from(refusal.number()),
                altered: 0,
            },
        }
    }
}

impl From<Result<Body, Refusal>> for Part {
    ghost from_gives = { λ r out. out ≡ part_out (look_of r) };

    fn from(r: Result<Body, Refusal>) -> Part {
        match r {
            Ok(body) => Part {
                refusal: 0,
                offset: body.at,
                length: body.length,
            },
            Err(refusal) => Part {
                refusal: usize::from(refusal.number()),
                offset: 0,
                length: 0,
            },
        }
    }
}

impl From<Result<scrub::Counts, Refusal>> for Counts {
    ghost from_gives = { λ r out. out ≡ counts_out (scrub_of r) };

    fn from(r: Result<scrub::Counts, Refusal>) -> Counts {
        match r {
            Ok(counts) => Counts {
                refusal: 0,
                objects: counts.objects,
                damaged: counts.damaged,
                broken: counts.broken,
                columns: counts.columns,
            },
            Err(refusal) => Counts {
                refusal: usize::from(refusal.number()),
                objects: 0,
                damaged: 0,
                broken: 0,
                columns: 0,
            },
        }
    }
}

// Makes a fresh pool.
#[unsafe(no_mangle)]
pub extern "C" fn pool_format(
    pool: &mut [u8],
    rows: usize,
    cols: usize,
    zones: usize,
    id: u64,
) -> usize
    ensures { (result, pool.new) ≡ changed_out (formatted pool.old rows cols zones id) }
{
    usize::from(refusals::number_or_0(pool::format(pool, rows, cols, zones, id)))
}

// Copies the valid header over an invalid one.
#[unsafe(no_mangle)]
pub extern "C" fn pool_mend(pool: &mut [u8]) -> usize
    ensures { (result, pool.new) ≡ changed_out (mend_header pool.old) }
{
    usize::from(refusals::number_or_0(pool::mend(pool)))
}

// Rebuilds the lost pages.
#[unsafe(no_mangle)]
pub extern "C" fn pool_repair(pool: &mut [u8], lost: &[u16]) -> Repaired
    ensures { (result, pool.new) ≡ repaired_out (repair_call pool.old lost.now) }
{
    Repaired::from(pool::repair(pool, lost))
}

// Where the body of the object at this address lies.
#[unsafe(no_mangle)]
pub extern "C" fn pool_look(pool: &[u8], address: usize) -> Part
    ensures { result ≡ part_out (looked pool.now address) }
{
    Part::from(pool::look_for(pool, address))
}

// Judges every object, zone and column.
#[unsafe(no_mangle)]
pub extern "C" fn pool_scrub(pool: &[u8]) -> Counts
    ensures { result ≡ counts_out (scrubbed pool.now) }
{
    Counts::from(pool::scrub(pool))
}

// The check of these bytes.
#[unsafe(no_mangle)]
pub extern "C" fn pool_check(bytes: &[u8]) -> u32
    ensures { result ≡ check_of bytes.now }
{
    sums::check(bytes)
}
