// Memory of 5,120 bytes under a power cut: the places of the words stored since the last barrier, and any subset of those stores laid over
// what the barrier left.
use answers::Answer;
use examples::memory::fresh;
use transaction::{Reply, Transaction};

// A pool as it is and as the last barrier left it, and the places of the words stored since.
#[derive(Drop)]
pub struct Memory {
    pub pool: [u8; 5120],
    base: [u8; 5120],
    // An array and how many of it are used: no heap.
    places: [usize; 40],
    pub stores: usize,
}

// Which of the stores since the last barrier a cut keeps, by their numbers from 0.
#[derive(Clone, Copy)]
pub enum Subset {
    Nothing,
    All,
    Even,
    Odd,
    Alone(usize),
    Without(usize),
}

impl Subset {
    fn has(self, i: usize) -> bool {
        match self {
            Subset::Nothing => false,
            Subset::All => true,
            Subset::Even => i % 2 == 0,
            Subset::Odd => i % 2 == 1,
            Subset::Alone(one) => i == one,
            Subset::Without(one) => i != one,
        }
    }
}

// Whether a step with this answer was a barrier: the last one is.
pub fn is_barrier(answer: Answer) -> bool {
    matches!(answer, Answer::Barrier(_) | Answer::Done(_))
}

// The place of the first word in which two pools differ.
fn changed(a: &[u8; 5120], b: &[u8; 5120]) -> Option<usize> {
    let at = a.iter().zip(b).position(|(x, y)| x != y)?;
    Some(at - at % 8)
}

// The word at `at` of `from`, stored in `to` too.
fn copy_word(to: &mut [u8; 5120], from: &[u8; 5120], at: usize) {
    if at <= 5112 {
        to[at..at + 8].copy_from_slice(&from[at..at + 8]);
    }
}

impl Memory {
    // A fresh pool, as a barrier left it.
    pub fn fresh() -> Memory {
        let pool = fresh::<5120>(1, 1, 1);
        Memory {
            pool,
            base: pool,
            places: [0; 40],
            stores: 0,
        }
    }

    // What a power cut leaves that keeps this subset of the stores; no word is stored twice between two barriers, so the pool has the value of each.
    pub fn cut(&self, subset: Subset) -> [u8; 5120] {
        let mut cut = self.base;
        for (i, &at) in self.places.iter().take(self.stores).enumerate() {
            if subset.has(i) {
                copy_word(&mut cut, &self.pool, at);
            }
        }
        cut
    }

    // Makes the next step of a commit: at a barrier the pool is kept as the new base; else the word stored joins the others.
    pub fn step(&mut self, t: Transaction, staging: &[u8]) -> Reply {
        let before = self.pool;
        let reply = t.step(&mut self.pool, staging);
        if is_barrier(reply.answer) {
            self.base = self.pool;
            self.stores = 0;
        } else {
            self.note(&before);
        }
        reply
    }

    fn note(&mut self, before: &[u8; 5120]) {
        if let Some(at) = changed(before, &self.pool)
            && let Some(place) = self.places.get_mut(self.stores)
        {
            *place = at;
            self.stores = self.stores.saturating_add(1);
        }
    }
}
