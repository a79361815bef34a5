// The errors of the command lines and the queue of ten in which they wait (A.3). The numbers stand without their minus. No public function has
// a `requires`: a queue that is not fit counts as empty, and what is handed back has zeros in its unused places.
#![tactic(auto)]

ghost use Rattle.std.specs.Prelude.{◌≡◌, [], length, IfOk, is_ok};
ghost use Rattle.std.proofs.lemmas.List.Edits.{sets};
ghost use Rattle.errors.specs.Errors.{behind_oldest, entered, is_error, line, oldest};
ghost use Rattle.errors.specs.Number.{number_in, number_of};
ghost use Rattle.errors.specs.declared.Error.TheVariants.{Execution};
ghost use Rattle.errors.specs.Meaning.{queue_in, queue_out};

use refusals::Refusal;
use texts::Text;

// The numbers of the six errors.
pub const DATA_TYPE_ERROR: u16 = 104;

pub const MISSING_PARAMETER: u16 = 109;

pub const UNDEFINED_HEADER: u16 = 113;

pub const EXECUTION_ERROR: u16 = 200;

pub const DATA_OUT_OF_RANGE: u16 = 222;

pub const QUEUE_OVERFLOW: u16 = 350;

// The six errors.
#[derive(Clone, Copy, Debug, PartialEq, Eq)]
pub enum Error {
    DataType = DATA_TYPE_ERROR as isize,
    MissingParameter = MISSING_PARAMETER as isize,
    UndefinedHeader = UNDEFINED_HEADER as isize,
    Execution = EXECUTION_ERROR as isize,
    OutOfRange = DATA_OUT_OF_RANGE as isize,
    QueueOverflow = QUEUE_OVERFLOW as isize,
}

// Its number, as include/pool.h has it.
impl From<Error> for u16 {
    ghost from_gives = { λ e n. n ≡ number_of e };

    fn from(e: Error) -> u16 {
        e as u16
    }
}

// A number that none of the six has.
#[derive(Clone, Copy, Debug, PartialEq, Eq)]
pub struct UnknownNumber;

// The error of this number, if it is one of the six.
impl TryFrom<u16> for Error {
    type Error = UnknownNumber;

    ghost try_from_gives = { λ n r. (is_ok r ≡ is_error n) × IfOk r (λ e. number_of e ≡ n) };

    #[tactic(auto, unfolding(crate::specs::Errors::is_error))]
    fn try_from(n: u16) -> Result<Error, UnknownNumber> {
        match n {
            DATA_TYPE_ERROR => Ok(Error::DataType),
            MISSING_PARAMETER => Ok(Error::MissingParameter),
            UNDEFINED_HEADER => Ok(Error::UndefinedHeader),
            EXECUTION_ERROR => Ok(Error::Execution),
            DATA_OUT_OF_RANGE => Ok(Error::OutOfRange),
            QUEUE_OVERFLOW => Ok(Error::QueueOverflow),
            _ => Err(UnknownNumber),
        }
    }
}

// A call of the pool that is refused, for whatever reason, is an execution error.
impl From<Refusal> for Error {
    ghost from_gives = { λ _ e. e ≡ Execution };

    fn from(_refusal: Refusal) -> Error {
        Self::Execution
    }
}

impl Error {
    // The line that tells of it.
    #[tactic(auto, unfolding(crate::specs::Errors::line, crate::specs::Errors::is_error, crate::specs::Errors::text, rules::specs::Scan::decimal, rules::specs::Scan::decimal_to))]
    pub fn line(self) -> &'static [u8]
        ensures { result.now ≡ line (number_of self) }
    {
        match self {
            Error::DataType => b"-104,\"Data type error\"\n",
            Error::MissingParameter => b"-109,\"Missing parameter\"\n",
            Error::UndefinedHeader => b"-113,\"Undefined header\"\n",
            Error::Execution => b"-200,\"Execution error\"\n",
            Error::OutOfRange => b"-222,\"Data out of range\"\n",
            Error::QueueOverflow => b"-350,\"Queue overflow\"\n",
        }
    }
}

// The errors that wait, the oldest first, and how many they are. Numbers, any of them, and any count: callers in C hand them in, and the promises
// of `enter` and `put_line` are stated by them.
#[derive(Clone, Copy, Debug, PartialEq, Eq)]
pub struct Queue {
    pub errors: [u16; 10],
    pub count: usize,
}

// The oldest error, if one waits, and the queue without it.
#[derive(Clone, Copy, Debug, PartialEq, Eq)]
pub struct Taken {
    pub error: Option<Error>,
    pub queue: Queue,
}

impl Queue {
    // No error waits.
    #[tactic(auto, unfolding(crate::specs::Meaning::queue_out))]
    pub fn new() -> Queue
        ensures { result ≡ queue_out [] }
    {
        Queue {
            errors: [0u16; 10],
            count: 0,
        }
    }

    // The queue as it is if it is fit, else an empty one.
    pub fn judged(self) -> Queue
        ensures { result ≡ queue_out (queue_in self) }
    {
        let count = self.count;
        if count > 10 {
            return Queue::new();
        }
        let waiting = &self.errors[..count];
        if !waiting.iter().all(|&e| Error::try_from(e).is_ok()) {
            return Queue::new();
        }
        let mut errors = [0u16; 10];
        errors[..count].copy_from_slice(waiting);
        Queue { errors, count }
    }

    // The queue with an error more.
    pub fn enter_error(self, e: Error) -> Queue
        ensures { result ≡ queue_out (entered (number_of e) (queue_in self)) }
    {
        self.enter(u16::from(e))
    }

    // The same by the error's number; a queue that holds any other number is not fit.
    pub fn enter(self, e: u16) -> Queue
        ensures { result ≡ queue_out (entered e (queue_in self)) }
    {
        let mut queue = self.judged();
        if queue.count < 10 {
            queue.errors[queue.count] = e;
            queue.count += 1;
        } else {
            queue.errors[9] = u16::from(Error::QueueOverflow);
        }
        queue
    }

    // The oldest error, and the queue without it.
    pub fn take(self) -> Taken
        ensures error { number_in result.error ≡ oldest (queue_in self) }
        ensures queue { result.queue ≡ queue_out (behind_oldest (queue_in self)) }
    {
        let queue = self.judged();
        if queue.count == 0 {
            return Taken { error: None, queue };
        }
        let waiting = queue.errors;
        let mut errors = [0u16; 10];
        errors[..9].copy_from_slice(&waiting[1..]);
        Taken {
            error: Error::try_from(waiting[0]).ok(),
            queue: Queue {
                errors,
                count: queue.count - 1,
            },
        }
    }
}

// The line that tells of an error, or that none waits, stored from the front of `out` on as far as it has room; the line's length.
pub fn put_error(out: &mut [u8], e: Option<Error>) -> usize
    ensures { (result ≡ length (line (number_in e))) × (out.new ≡ sets out.old 0 (line (number_in e))) }
{
    let line = match e {
        Some(e) => e.line(),
        None => b"0,\"No error\"\n",
    };
    let mut text = Text::new(out);
    text.put_bytes(line);
    text.length()
}

// The same by the error's number, 0 for none; of any other number nothing is stored.
pub fn put_line(out: &mut [u8], e: u16) -> usize
    ensures { (result ≡ length (line e)) × (out.new ≡ sets out.old 0 (line e)) }
{
    let error = Error::try_from(e).ok();
    if e != 0 && error.is_none() {
        return 0;
    }
    put_error(out, error)
}
