// Text and decimal numbers put into a buffer as snprintf does: a byte past the buffer's end is counted and left out.
#![tactic(auto)]

ghost use Rattle.std.specs.Prelude.{◌≡◌, [], ◌∷◌, ◌+◌, ◌<◌, ◌≤◌, length};
ghost use Rattle.rules.specs.Scan.{decimal};
ghost use Rattle.texts.specs.Put.{between_text, pair_text};
ghost use Rattle.texts.specs.Adds.{Adds, held};

// A buffer, and the place behind the text put into it. Each `put_..` puts behind that text.
#[derive(Drop)]
pub struct Text<'a> {
    out: &'a mut [u8],
    at: usize,
}

impl<'a> Text<'a> {
    // No text yet: the buffer from its front on.
    pub fn new(out: &'a mut [u8]) -> Text<'a>
        ensures stored { result.out.now ≡ out.old }
        ensures place { result.at ≡ 0 }
        ensures buffer { result.out.ghost_name ≡ out.entry.ghost_name }
    {
        Text::at(out, 0)
    }

    // The buffer from any place `at` on: what stands before it counts as text.
    pub fn at(out: &'a mut [u8], at: usize) -> Text<'a>
        ensures stored { result.out.now ≡ out.old }
        ensures place { result.at ≡ at }
        ensures buffer { result.out.ghost_name ≡ out.entry.ghost_name }
    {
        Text { out, at }
    }

    // The length of the text, with what the buffer had no room for.
    pub fn length(&self) -> usize
        ensures { result ≡ self.now.at }
    {
        self.at
    }

    // The bytes of the text that the buffer has.
    pub fn bytes(&self) -> &[u8]
        ensures { result.now ≡ held self.now }
    {
        &self.out[..self.at.min(self.out.len())]
    }

    // The text's first `length` bytes alone.
    pub fn truncate(&mut self, length: usize)
        requires { length ≤ self.old.at }
        ensures place { self.new.at ≡ length }
        ensures buffer { self.new.out ≡ self.old.out }
    {
        self.at = length;
    }

    // The byte `b`.
    fn put_byte(&mut self, b: u8)
        requires { self.old.at < 4294967296 }
        ensures { Adds 1 self.old (b ∷ []) self.new }
    {
        if self.at < self.out.len() {
            self.out[self.at] = b;
        }
        self.at += 1;
    }

    // The bytes `s`.
    pub fn put_bytes(&mut self, s: &[u8])
        requires { self.old.at + length s.now < 4294967296 }
        ensures { Adds (length s.now) self.old s.now self.new }
    {
        for &b in s {
            self.put_byte(b);
        }
    }

    // The number `n` in decimal. By hand: what `write!` puts is known of a String alone, which is on the heap.
    pub fn put_number(&mut self, n: usize)
        requires { (self.old.at + 10 < 4294967296) × (n < 10000000000) }
        ensures { Adds 10 self.old (decimal n) self.new }
    {
        if n < 10 {
            return self.put_byte(digit(n));
        }
        self.put_number(n / 10);
        self.put_byte(digit(n % 10));
    }

    // The word, then the numbers `m` and `n`.
    pub fn put_pair(&mut self, word: &[u8], m: usize, n: usize)
        requires { (self.old.at + length word.now + 21 < 4294967296) × (m < 10000000000) × (n < 10000000000) }
        ensures { Adds (length word.now + 21) self.old (pair_text word.now m n) self.new }
    {
        self.put_bytes(word);
        self.put_number(m);
        self.put_bytes(b" ");
        self.put_number(n);
    }

    // The number `n` between the texts `front` and `end`.
    pub fn put_between(&mut self, front: &[u8], n: usize, end: &[u8])
        requires { (self.old.at + length front.now + 10 + length end.now < 4294967296) × (n < 10000000000) }
        ensures { Adds (length front.now + 10 + length end.now) self.old (between_text front.now n end.now) self.new }
    {
        self.put_bytes(front);
        self.put_number(n);
        self.put_bytes(end);
    }
}

// The decimal digit of `n`.
fn digit(n: usize) -> u8
    requires { n < 10 }
    ensures { result ≡ 48 + n }
{
    b'0' + n as u8
}
