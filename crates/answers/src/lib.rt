// What the calls on a transaction and on a recovery answer, an answer as two numbers, its kind and its value, and what a call that stages
// words leaves.
#![tactic(auto)]

ghost use Rattle.std.specs.Prelude.{◌≡◌};
ghost use Rattle.rules.specs.Answer.{is_refused};
ghost use Rattle.answers.specs.Meaning.{answer_of, kind_of, value_of};

use refusals::Refusal;

// 01 numbers the steps of a commit or of a recovery from 1. One enum, a refusal among its cases: 01's answers; the record is handed back with each,
// so that a Result would need it in both arms.
#[derive(Clone, Copy, Debug, PartialEq, Eq)]
pub enum Answer {
    Address(usize),
    Taken,
    Started,
    Stored(usize),
    Barrier(usize),
    Done(usize),
    Refused(Refusal),
}

// The kinds, as include/pool.h numbers them. They, `kind` and `value` are for C alone: a kind and a value.
impl Answer {
    // The value is the refusal's number.
    pub const REFUSED: usize = 0;
    // The value is the address of the object allocated.
    pub const ADDRESS: usize = 1;
    // Carried out; the value is 0.
    pub const TAKEN: usize = 2;
    // There are steps to make; the value is 0.
    pub const STARTED: usize = 3;
    // The step is a store; the value is its number.
    pub const STORED: usize = 4;
    // The step is a barrier; the value is its number.
    pub const BARRIER: usize = 5;
    // All steps are made; the value is their number.
    pub const DONE: usize = 6;
}

// The kind of an answer.
pub fn kind(answer: Answer) -> usize
    ensures { result ≡ kind_of (answer_of answer) }
{
    match answer {
        Answer::Refused(_) => Answer::REFUSED,
        Answer::Address(_) => Answer::ADDRESS,
        Answer::Taken => Answer::TAKEN,
        Answer::Started => Answer::STARTED,
        Answer::Stored(_) => Answer::STORED,
        Answer::Barrier(_) => Answer::BARRIER,
        Answer::Done(_) => Answer::DONE,
    }
}

// Whether an answer is a refusal.
#[tactic(auto, using(crate::proofs::AnswerKinds::refused_only), unfolding(rules::specs::Answer::is_refused))]
pub fn is_refused(answer: Answer) -> bool
    ensures { result ≡ is_refused (answer_of answer) }
{
    matches!(answer, Answer::Refused(_))
}

// The refusal, the address or the number of the step; 0 where there is none.
pub fn value(answer: Answer) -> usize
    ensures { result ≡ value_of (answer_of answer) }
{
    match answer {
        Answer::Refused(r) => usize::from(r.number()),
        Answer::Address(a) => a,
        Answer::Taken => 0,
        Answer::Started => 0,
        Answer::Stored(k) => k,
        Answer::Barrier(k) => k,
        Answer::Done(k) => k,
    }
}

// The answer of a call that is carried out, and the number of entries then.
#[derive(Clone, Copy, Debug, PartialEq, Eq)]
pub struct Staged {
    pub answer: Answer,
    pub count: usize,
}
