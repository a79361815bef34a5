// A pool opened by its header page or by the copy, and its id.

ghost use Rattle.std.specs.Prelude.{◌≡◌, true, false, ◌*◌, ◌≤◌, length};
ghost use Rattle.rules.specs.Words.{Bytes};
ghost use Rattle.rules.specs.Shape.{page_size, pool_size};
ghost use Rattle.rules.specs.Header.{header_ok, id_in, page_at, same};
ghost use Rattle.layout.specs.Meaning.{checked_of, opened, opened_by, shape_of};

use crate::Shape;
use refusals::Refusal;

// A pool of its shape, for calls that read it. One that stores into the pool takes the shape beside the bytes: they would be lent meanwhile.
#[derive(Clone, Copy)]
pub struct Pool<'a> {
    pub bytes: &'a [u8],
    pub shape: Shape,
    pub ghost sized: { length bytes.now ≡ pool_size (shape_of shape) },
    pub ghost octets: { Bytes bytes.now },
}

impl<'a> Pool<'a> {
    ghost use Rattle.std.specs.Prelude.{IfOk};
    ghost use Rattle.layout.specs.Opened.{opened_of};

    // The pool, or the first of refusals 2, 3, 4, 2.
    pub fn open(bytes: &'a [u8]) -> Result<Pool<'a>, Refusal>
        ensures shape { opened_of result ≡ opened bytes.now }
        ensures bytes { IfOk result (λ p. p.bytes.now ≡ bytes.now) }
    {
        let shape = open(bytes)?;
        Ok(Pool { bytes, shape })
    }
}

// The shape that a valid header page tells, which is in range, or refusal 2: `n` is not its length.
fn open_by(h: &[u8], n: usize) -> Result<Shape, Refusal>
    requires { (length h.now ≡ page_size) × (header_ok h.now ≡ true) }
    ensures { checked_of result ≡ opened_by h.now n }
{
    let s = Shape::new(header::byte(h, 4), header::byte(h, 5), header::byte(h, 6)).unwrap();
    if n != s.size() {
        return Err(Refusal::Length);
    }
    Ok(s)
}

// A pool whose copy equals its header: the letters are compared on both (01); the rest is judged once, since both are valid or neither, and 4 cannot be.
fn open_one(pool: &[u8]) -> Result<Shape, Refusal>
    requires { (2 * page_size ≤ length pool.now) × (same (page_at pool.now 0) (page_at pool.now page_size) ≡ true) }
    ensures { checked_of result ≡ opened pool.now }
{
    if !header::letters_ok(&pool[256..512]) {
        return Err(Refusal::NoHeader);
    }
    if !header::valid(&pool[0..256]) {
        return Err(Refusal::NoHeader);
    }
    open_by(&pool[0..256], pool.len())
}

// A pool whose copy is different: refusal 4 if both are valid.
fn open_two(pool: &[u8]) -> Result<Shape, Refusal>
    requires { (2 * page_size ≤ length pool.now) × (same (page_at pool.now 0) (page_at pool.now page_size) ≡ false) }
    ensures { checked_of result ≡ opened pool.now }
{
    if header::valid(&pool[0..256]) {
        if header::valid(&pool[256..512]) {
            return Err(Refusal::HeadersDiffer);
        }
        return open_by(&pool[0..256], pool.len());
    }
    if header::valid(&pool[256..512]) {
        return open_by(&pool[256..512], pool.len());
    }
    Err(Refusal::NoHeader)
}

// The pool's shape, or the first of refusals 2, 3, 4, 2.
pub fn open(pool: &[u8]) -> Result<Shape, Refusal>
    ensures { checked_of result ≡ opened pool.now }
{
    if pool.len() < 2 * Shape::PAGE {
        return Err(Refusal::Length);
    }
    if header::pages_same(&pool[0..256], &pool[256..512]) {
        return open_one(pool);
    }
    open_two(pool)
}

// The pool's id: that of the first valid header. The first is judged only where the copy has another id.
pub fn id(pool: &[u8]) -> u64
    requires { 2 * page_size ≤ length pool.now }
    ensures { result ≡ id_in pool.now }
{
    let first = header::id(&pool[0..256]);
    let copy = header::id(&pool[256..512]);
    if first == copy {
        return first;
    }
    if header::valid(&pool[0..256]) {
        return first;
    }
    copy
}
