// Parity by the pool's shape (01, "The pool's bytes"): the parity word for a place, and columns with wrong parity.
#![tactic(auto)]

ghost use Rattle.std.specs.Prelude.{◌≡◌, not, ◌≤◌, ◌<◌, length};
ghost use Rattle.rules.specs.Shape.{InZones, parity_at, pool_size};
ghost use Rattle.rules.specs.Parity.{parity_word};
ghost use Rattle.rules.specs.Scrub.{column_right, count_to, wrong_columns};
ghost use Rattle.layout.specs.Meaning.{shape_of};
ghost use Rattle.columns.specs.Column.{Word};

use layout::{Pool, Shape};

// The place of `t`'s parity word.
pub fn parity_at(s: Shape, t: usize) -> usize
    requires { InZones (shape_of s) t }
    ensures { result ≡ parity_at (shape_of s) t }
{
    s.row_at(t, s.rows)
}

// The parity word for `t`'s place: the exclusive or of all data rows.
pub fn parity_word(s: Shape, pool: &[u8], t: usize) -> u64
    requires { (InZones (shape_of s) t) × (length pool.now ≡ pool_size (shape_of s)) }
    ensures { Word (parity_word (shape_of s) pool.now t) result }
{
    let at = s.row_at(t, 0);
    columns::xor_rows(pool, at, s.row_size(), s.rows)
}

// Whether column `c` of zone `z` has right parity.
fn column_right(pool: &Pool, z: usize, c: usize) -> bool
    requires { (z < pool.now.shape.zones) × (c < pool.now.shape.cols) }
    ensures { result ≡ column_right (shape_of pool.now.shape) pool.now.bytes.now z c }
{
    let s = pool.shape;
    let at = s.column_at(z, c);
    columns::page_right(pool.bytes, at, s.row_size(), s.rows + 1, s.page)
}

// The columns of zone `z` with wrong parity.
fn wrong_in_zone(pool: &Pool, z: usize) -> usize
    requires { z < pool.now.shape.zones }
    ensures { result ≡ count_to pool.now.shape.cols (λ c. not (column_right (shape_of pool.now.shape) pool.now.bytes.now z c)) }
{
    (0..pool.shape.cols)
        .filter(|&c| !column_right(pool, z, c))
        .count()
}

// The columns with wrong parity.
pub fn wrong_columns(pool: &Pool) -> usize
    ensures { result ≡ wrong_columns (shape_of pool.now.shape) pool.now.bytes.now }
{
    (0..pool.shape.zones).map(|z| wrong_in_zone(pool, z)).sum()
}
