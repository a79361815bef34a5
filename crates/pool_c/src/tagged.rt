// The look-up by tag, and the set-ups.
ghost use Rattle.std.specs.Prelude.{◌≡◌};
ghost use Rattle.rules.specs.Tag.{look_up};
ghost use Rattle.pool.specs.Meaning.{look_up_of};
ghost use Rattle.setups.specs.Setups.{recalled, saved};
ghost use Rattle.pool_c.specs.Meaning.{after_out, found_out, part_out};

use crate::pools::Part;
use crate::transactions::{Reply, encoded};
use refusals::Refusal;

// The address of an object with a tag: whether one was found, and its address; or the refusal, and zeros.
#[repr(C)]
#[derive(Clone, Copy)]
pub struct Found {
    pub refusal: usize,
    pub found: usize,
    pub address: usize,
}

impl From<Result<Option<usize>, Refusal>> for Found {
    ghost from_gives = { λ r out. out ≡ found_out (look_up_of r) };

    fn from(r: Result<Option<usize>, Refusal>) -> Found {
        match r {
            Ok(Some(address)) => Found {
                refusal: 0,
                found: 1,
                address,
            },
            Ok(None) => Found {
                refusal: 0,
                found: 0,
                address: 0,
            },
            Err(refusal) => Found {
                refusal: usize::from(refusal.number()),
                found: 0,
                address: 0,
            },
        }
    }
}

// The lowest address at or above `from` of an object with this tag.
#[unsafe(no_mangle)]
pub extern "C" fn pool_look_up(pool: &[u8], tag: u32, from: usize) -> Found
    ensures { result ≡ found_out (look_up pool.now tag from) }
{
    Found::from(pool::look_up(pool, tag, from))
}

// Stages a set-up in a transaction of its own.
#[unsafe(no_mangle)]
pub extern "C" fn pool_save(pool: &[u8], staging: &mut [u8], number: usize, body: &[u8]) -> Reply
    ensures { (result, pool.now, staging.new) ≡ after_out (saved pool.now staging.old number body.now) }
{
    encoded(setups::save(pool, staging, number, body))
}

// Where the bytes of a set-up lie.
#[unsafe(no_mangle)]
pub extern "C" fn pool_recall(pool: &[u8], number: usize) -> Part
    ensures { result ≡ part_out (recalled pool.now number) }
{
    Part::from(setups::recall_for(pool, number))
}
