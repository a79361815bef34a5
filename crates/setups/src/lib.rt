// Set-ups 0 to 9 behind *SAV and *RCL (A.1), over the pool's public calls and proved from the contracts of these alone: it reads no byte of the
// pool by itself. No function has a `requires`: each answers for all inputs.
#![tactic(auto)]

ghost use Rattle.std.specs.Prelude.{◌≡◌, ℕ, ◌+◌, ◌<◌, ◌≤◌, MatchResult};
ghost use Rattle.refusals.specs.declared.Refusal.TheVariants.{SetupNumber};
ghost use Rattle.rules.specs.Look.{part, seen};
ghost use Rattle.transaction.specs.Meaning.{after_of};
ghost use Rattle.zones.specs.Body.{look_of, Within};
ghost use Rattle.pool.specs.Meaning.{refusal_of};
ghost use Rattle.setups.specs.Setups.{last_setup, recalled, saved, setup_tag};
ghost use Rattle.setups.specs.Found.{Accepted, begun_in, begun_of, Inside, saved_of, spot, spot_of};

use answers::Answer;
use record::Record;
use refusals::Refusal;
use transaction::{Reply, Transaction};
use zones::Body;

// The last set-up.
const LAST: usize = 9;
// The bytes of a set-up.
const SIZE: usize = 120;
// Bytes of staging memory, at least: `layout` has it too, but a set-up crate stands on the pool's public calls alone.
const STAGING: usize = 2032;

// The object of a set-up: its address, and where its body lies.
#[derive(Clone, Copy)]
struct Setup {
    address: usize,
    at: usize,
}

// The tag of set-up `n`, or refusal 32.
fn tag_of(n: usize) -> Result<u32, Refusal>
    ensures { MatchResult result (λ t. (t ≡ setup_tag n) × (n ≤ last_setup)) (λ x. (x ≡ SetupNumber) × (last_setup < n)) }
{
    if LAST < n {
        return Err(Refusal::SetupNumber);
    }
    Ok((100 + n) as u32)
}

// What a call hands back, or its refusal.
fn accepted(reply: Reply) -> Result<Reply, Refusal>
    ensures { Accepted reply result }
{
    match reply.answer {
        Answer::Refused(refusal) => Err(refusal),
        _ => Ok(reply),
    }
}

// A transaction begun, with `room` bytes of staging memory: or the first of 2, 3, 4, 2, 9, 21, where beginning alone knows no 9.
fn begin(pool: &[u8], room: usize) -> Result<Transaction, Refusal>
    ensures { begun_of result ≡ begun_in pool.now room }
{
    let begun = accepted(Transaction::begin(pool));
    if STAGING <= room {
        return begun.map(|reply| reply.transaction);
    }
    match begun {
        Ok(_) | Err(Refusal::Sealed) => Err(Refusal::Staging),
        Err(refusal) => Err(refusal),
    }
}

// The object with this tag, the lowest if several, if there is one and it can be a set-up; or the first of 2, 3, 4, 2, 21, 23, 25, 33.
fn find(pool: &[u8], tag: u32) -> Result<Option<Setup>, Refusal>
    ensures { (spot_of result ≡ spot pool.now tag) × Inside pool.now result }
{
    let Some(address) = pool::look_up(pool, tag, 0)? else {
        return Ok(None);
    };
    let body = pool::look_for(pool, address)?;
    if body.length != SIZE {
        return Err(Refusal::SetupSize);
    }
    Ok(Some(Setup {
        address,
        at: body.at,
    }))
}

// Stages set-up `n` in a transaction of its own: allocates it, or writes it whole. Commit and steps stay with the caller, who passes the
// barriers. The first of refusals 32, 33 given, 2, 3, 4, 2, 9, 21, 23, 25, 33 found, 26; it hands back a record that no call takes.
pub fn save(pool: &[u8], staging: &mut [u8], n: usize, body: &[u8]) -> Reply
    ensures { after_of result pool.now staging.new ≡ saved pool.now staging.old n body.now }
{
    match try_save(pool, staging, n, body) {
        Ok(reply) => reply,
        Err(refusal) => Reply {
            answer: Answer::Refused(refusal),
            transaction: Transaction {
                txn: Record::unusable(),
            },
        },
    }
}

fn try_save(pool: &[u8], staging: &mut [u8], n: usize, body: &[u8]) -> Result<Reply, Refusal>
    ensures { saved_of result pool.now staging.new ≡ saved pool.now staging.old n body.now }
{
    let tag = tag_of(n)?;
    if body.len() != SIZE {
        return Err(Refusal::SetupSize);
    }
    let txn = begin(pool, staging.len())?;
    match find(pool, tag)? {
        None => accepted(txn.allocate(pool, staging, tag, body)),
        Some(setup) => accepted(txn.write(pool, staging, setup.address, 0, body)),
    }
}

// The part of the pool that holds set-up `n`, or the first of refusals 32, 2, 3, 4, 2, 21, 23, 31, 25, 33.
pub fn recall_for(pool: &[u8], n: usize) -> Result<Body, Refusal>
    ensures { (look_of result ≡ recalled pool.now n) × Within pool.now result }
{
    let setup = find(pool, tag_of(n)?)?.ok_or(Refusal::NoSetup)?;
    Ok(Body {
        at: setup.at,
        length: SIZE,
    })
}

// Why recall hands out an empty part: the refusal's number, or 0 (A.1 takes look's companion over).
pub fn recall_refusal(pool: &[u8], n: usize) -> u8
    ensures { result ≡ refusal_of (recalled pool.now n) }
{
    refusals::number_or_0(recall_for(pool, n))
}

// The bytes of set-up `n`, in the pool itself; an empty part if it is refused. No function serves `look` too: it would be public and require
// that the body lies in the pool.
pub fn recall(pool: &[u8], n: usize) -> &[u8]
    ensures { (result.now ≡ seen pool.now (recalled pool.now n)) × ((at m : ℕ) → recalled pool.now n ≡ part at m → result.ref_ptr ≡ (pool.entry.ref_ptr.0, pool.entry.ref_ptr.1 + at)) }
{
    match recall_for(pool, n) {
        Ok(body) => &pool[body.at..body.at + body.length],
        Err(_) => &pool[0..0],
    }
}
