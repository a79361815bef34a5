// The command lines.
ghost use Rattle.std.specs.Prelude.{◌≡◌};
ghost use Rattle.errors.specs.Meaning.{queue_in};
ghost use Rattle.commands.specs.Meaning.{done_of};
ghost use Rattle.commands.specs.Obey.{obeyed};
ghost use Rattle.rules.specs.Staging.{unusable};
ghost use Rattle.pool_c.specs.Meaning.{DoneFits, done_out, errors_in, obeyed_out, transaction_out};

use crate::transactions::{Transaction, handed_out};
use commands::Done;
use errors::Queue;
use record::Record;

// How many errors wait, and which, the oldest first.
#[repr(C)]
#[derive(Clone, Copy)]
pub struct Errors {
    pub count: usize,
    pub errors: [u16; 10],
}

// What a line did: 0 nothing, 1 a set-up is staged in the transaction, 2 one lies at `value` with this length, 3 a line of this length was
// printed; and the errors that wait then.
#[repr(C)]
#[derive(Clone, Copy)]
pub struct Obeyed {
    pub kind: usize,
    pub value: usize,
    pub length: usize,
    pub errors: Errors,
    pub transaction: Transaction,
}

impl From<Errors> for Queue {
    ghost from_gives = { λ e q. queue_in q ≡ errors_in e };

    #[tactic(auto, unfolding(errors::specs::Meaning::queue_in))]
    fn from(e: Errors) -> Queue {
        let Errors { count, errors } = e;
        Queue { errors, count }
    }
}

impl From<Queue> for Errors {
    ghost from_gives = { λ q e. e ≡ record { count = q.count; errors = q.errors } };

    fn from(q: Queue) -> Errors {
        let Queue { errors, count } = q;
        Errors { count, errors }
    }
}

// A transaction that no call takes.
fn none() -> Transaction
    ensures { result ≡ transaction_out unusable }
{
    handed_out(transaction::Transaction {
        txn: Record::unusable(),
    })
}

// What goes out. No From: it has a `requires`.
fn told(errors: Errors, done: Done) -> Obeyed
    requires { DoneFits (done_of done) }
    ensures { result ≡ done_out errors (done_of done) }
{
    let nothing = Obeyed {
        kind: 0,
        value: 0,
        length: 0,
        errors,
        transaction: none(),
    };
    match done {
        Done::Nothing => nothing,
        Done::Saving(t) => Obeyed {
            kind: 1,
            transaction: handed_out(t),
            ..nothing
        },
        Done::Recalled(body) => Obeyed {
            kind: 2,
            value: body.at,
            length: body.length,
            ..nothing
        },
        Done::Printed(length) => Obeyed {
            kind: 3,
            length,
            ..nothing
        },
    }
}

// Obeys a command line.
#[unsafe(no_mangle)]
pub extern "C" fn pool_command(
    line: &[u8],
    setup: &[u8],
    errors: Errors,
    pool: &[u8],
    staging: &mut [u8],
    out: &mut [u8],
) -> Obeyed
    ensures { (result, staging.new, out.new) ≡ obeyed_out (obeyed line.now setup.now (errors_in errors) pool.now staging.old out.old) }
{
    let obeyed = commands::obey(line, setup, Queue::from(errors), pool, staging, out);
    told(Errors::from(obeyed.queue), obeyed.done)
}
