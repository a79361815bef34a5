// Where the entries of a commit or of a replay are read while the pool is stored into.
ghost use Rattle.std.specs.Prelude.{ℕ, List, ◌≡◌, refl};
ghost use Rattle.powercut.proofs.Untouched.{Untouched};

// The bytes that hold entries, beside a pool. What stands before a place of them stays as long as the pool before that place does.
pub trait Entries {
    ghost bytes: { Self → List ℕ → List ℕ };

    fn bytes<'a>(&'a self, pool: &'a [u8]) -> &'a [u8]
        ensures { result.now ≡ bytes self.now pool.now };

    ghost kept: { (e : Self) (m : ℕ) (p q : List ℕ) → Untouched m q p → Untouched m (bytes e q) (bytes e p) };
}

// A commit's entries, in staging memory.
#[derive(Clone, Copy, Debug)]
pub struct Staged<'a> {
    pub staging: &'a [u8],
}

// A replay's entries, in the pool's own log.
#[derive(Clone, Copy, Debug)]
pub struct Logged;

impl Entries for Staged<'_> {
    ghost bytes = { λ e p. e.staging.now };

    ghost kept = { λ e m p q u. record { length-is = refl; before = λ i l. refl } };

    fn bytes<'a>(&'a self, _pool: &'a [u8]) -> &'a [u8] {
        self.staging
    }
}

impl Entries for Logged {
    ghost bytes = { λ e p. p };

    ghost kept = { λ e m p q u. u };

    fn bytes<'a>(&'a self, pool: &'a [u8]) -> &'a [u8] {
        pool
    }
}
