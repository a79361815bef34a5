// A command line obeyed (A.3): set-ups saved and recalled, and the oldest error asked for, over the contracts of `setups`, `lines` and `errors`
// alone. No function has a `requires`: each answers for all inputs.
#![tactic(auto)]

ghost use Rattle.std.specs.Prelude.{◌≡◌, ℕ, List};
ghost use Rattle.errors.specs.Errors as Errors;
ghost use Rattle.errors.specs.Meaning.{queue_in};
ghost use Rattle.setups.specs.Setups.{recalled, saved};
ghost use Rattle.commands.specs.Obey.{after_recall, after_save, answered, obeyed};
ghost use Rattle.commands.specs.Meaning.{done_of, handed, handed_by, left_by};

use answers::Answer;
use errors::{Error, Queue};
use lines::Command;
use transaction::Transaction;
use zones::Body;

// What was done: a set-up is staged in this transaction, whose commit and steps are the caller's; a set-up lies there in the pool; a line of
// this length was printed.
#[derive(Clone, Copy)]
pub enum Done {
    Nothing,
    Saving(Transaction),
    Recalled(Body),
    Printed(usize),
}

#[derive(Clone, Copy)]
pub struct Obeyed {
    pub queue: Queue,
    pub done: Done,
}

// Stages set-up `n`.
fn save(pool: &[u8], staging: &mut [u8], n: usize, setup: &[u8]) -> Result<Done, Error>
    ensures { (queue : Errors.Queue) (out : List ℕ) → left_by result queue staging.new out ≡ after_save queue staging.old out (saved pool.now staging.old n setup.now) }
{
    let reply = setups::save(pool, staging, n, setup);
    if let Answer::Refused(refusal) = reply.answer {
        return Err(Error::from(refusal));
    }
    Ok(Done::Saving(reply.transaction))
}

// Tells where set-up `n` lies.
fn recall(pool: &[u8], n: usize) -> Result<Done, Error>
    ensures { (queue : Errors.Queue) (staging out : List ℕ) → left_by result queue staging out ≡ after_recall queue staging out (recalled pool.now n) }
{
    let body = setups::recall_for(pool, n)?;
    Ok(Done::Recalled(body))
}

// The queue handed back beside what was done; no error is entered.
fn without_error(queue: Queue, done: Done) -> Obeyed
    ensures { (staging out : List ℕ) → (result.queue, done_of result.done, staging, out) ≡ handed (record { queue = queue_in queue; done = done_of done; staging = staging; out = out }) }
{
    Obeyed {
        queue: queue.judged(),
        done,
    }
}

// Takes the oldest error out and prints its line.
fn ask(queue: Queue, out: &mut [u8]) -> Obeyed
    ensures { (staging : List ℕ) → (result.queue, done_of result.done, staging, out.new) ≡ handed (answered (queue_in queue) staging out.old) }
{
    let taken = queue.take();
    Obeyed {
        queue: taken.queue,
        done: Done::Printed(errors::put_error(out, taken.error)),
    }
}

// Carries out a line, or tells its error, which is still to be entered.
fn carry_out(
    line: &[u8],
    setup: &[u8],
    queue: Queue,
    pool: &[u8],
    staging: &mut [u8],
    out: &mut [u8],
) -> Result<Obeyed, Error>
    ensures { handed_by result (queue_in queue) staging.new out.new ≡ handed (obeyed line.now setup.now (queue_in queue) pool.now staging.old out.old) }
{
    match lines::read(line)? {
        Command::Nothing => Ok(without_error(queue, Done::Nothing)),
        Command::Save(n) => Ok(without_error(queue, save(pool, staging, n, setup)?)),
        Command::Recall(n) => Ok(without_error(queue, recall(pool, n)?)),
        Command::Query => Ok(ask(queue, out)),
    }
}

// Obeys a line, given without its line end. `setup` holds the 120 bytes that *SAV stores.
pub fn obey(
    line: &[u8],
    setup: &[u8],
    queue: Queue,
    pool: &[u8],
    staging: &mut [u8],
    out: &mut [u8],
) -> Obeyed
    ensures { (result.queue, done_of result.done, staging.new, out.new) ≡ handed (obeyed line.now setup.now (queue_in queue) pool.now staging.old out.old) }
{
    match carry_out(line, setup, queue, pool, staging, out) {
        Ok(obeyed) => obeyed,
        Err(e) => Obeyed {
            queue: queue.enter_error(e),
            done: Done::Nothing,
        },
    }
}
