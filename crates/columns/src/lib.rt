// The rows of a column (01, "The pool's bytes"): their exclusive or, a page rebuilt from the others, a column's parity judged. Place, stride and rows go
// beside the pool: a value of them would be made for one call each.
#![tactic(auto)]

ghost use Rattle.std.specs.Prelude.{◌≡◌, ◌+◌, ◌*◌, ◌≤◌, ◌<◌, min, length, replicate};
ghost use Rattle.std.proofs.lemmas.List.Edits.{sets};
ghost use Rattle.rules.specs.Shape.{page_size};
ghost use Rattle.rules.specs.Parity.{xor_to};
ghost use Rattle.rules.specs.Repair.{differences, tab_from};
ghost use Rattle.columns.specs.Column.{RowsFit, Word, other_byte, row_word, rows_zero, xored, zeros};

use layout::Shape;

// The exclusive or of the words at `at` in all rows. By the row's number, which gives its place: chunks of a stride would run on into the next
// row.
pub fn xor_rows(pool: &[u8], at: usize, stride: usize, rows: usize) -> u64
    requires { RowsFit pool.now at stride rows 8 }
    ensures { Word (xor_to rows (row_word pool.now at stride)) result }
{
    let mut acc: u64 = 0;
    for k in 0..rows {
        acc ^= words::load64(pool, at + k * stride);
    }
    acc
}

// `sum` becomes the exclusive or of itself and the pool's bytes from `at` on. By index: behind a zip of iter_mut no byte is known to the check.
fn xor_page(sum: &mut [u8], pool: &[u8], at: usize)
    requires { at + length sum.old ≤ length pool.now }
    ensures { sum.new ≡ xored sum.old pool.now at }
{
    for i in 0..sum.len() {
        sum[i] ^= pool[at + i];
    }
}

// `sum`, zero at first, becomes the exclusive or of the pages at `at` in all rows but the one left out. By the row's number: one row is left out
// by it.
fn xor_pages(sum: &mut [u8], pool: &[u8], at: usize, stride: usize, rows: usize, without: usize)
    requires { (sum.old ≡ replicate (length sum.old) 0) × (RowsFit pool.now at stride rows (length sum.old)) }
    ensures { sum.new ≡ tab_from 0 (length sum.old) (other_byte pool.now at stride rows without) }
{
    for k in 0..rows {
        if k != without {
            xor_page(sum, pool, at + k * stride);
        }
    }
}

// Whether all bytes are zero. The loop has no branch: every byte is read.
fn all_zero(s: &[u8]) -> bool
    ensures { result ≡ zeros s.now (length s.now) }
{
    let mut any = 0u8;
    for &byte in s {
        any |= byte;
    }
    any == 0
}

// Bytes compared at once: the differences of so many fit into 8 bits.
const BLOCK: usize = 128;

// At how many places two blocks differ. The loop has no way out before its end, and the number has 8 bits, so that the compiler compares many
// bytes at once.
fn count_block(before: &[u8], after: &[u8]) -> u8
    requires { (length before.now ≡ length after.now) × (length before.now ≤ 128) }
    ensures { result ≡ differences before.now after.now }
{
    let mut n = 0u8;
    for (x, y) in before.iter().zip(after) {
        if x != y {
            n += 1;
        }
    }
    n
}

// At how many places two slices of one length differ.
fn count_differences(before: &[u8], after: &[u8]) -> usize
    requires { length before.now ≡ length after.now }
    ensures { result ≡ differences before.now after.now }
{
    let mut total = 0;
    for (x, y) in before.chunks(BLOCK).zip(after.chunks(BLOCK)) {
        total += usize::from(count_block(x, y));
    }
    total
}

// The pool's bytes from `at` on become `new`. Answers how many of them that altered.
fn replace(pool: &mut [u8], at: usize, new: &[u8]) -> usize
    requires { at + length new.now ≤ length pool.old }
    ensures { (pool.new ≡ sets pool.old at new.now) × (result ≡ differences pool.old pool.new) × (result ≤ length new.now) }
{
    let altered = count_differences(&pool[at..at + new.len()], new);
    pages::store(pool, at, new);
    altered
}

// The lost row's page becomes the exclusive or of the other rows' pages. Answers how many of its bytes that altered.
pub fn rebuild_page(
    pool: &mut [u8],
    at: usize,
    stride: usize,
    rows: usize,
    lost: usize,
    page: usize,
) -> usize
    requires { (RowsFit pool.old at stride rows page) × (lost < rows) × (page ≤ page_size) }
    ensures { (pool.new ≡ sets pool.old (at + lost * stride) (tab_from 0 page (other_byte pool.old at stride rows lost))) × (result ≡ differences pool.old pool.new) × (result ≤ page) }
{
    let mut sum = [0u8; Shape::PAGE];
    xor_pages(&mut sum[..page], pool, at, stride, rows, lost);
    replace(pool, at + lost * stride, &sum[..page])
}

// Whether the exclusive or of the rows' pages is zero at every byte.
pub fn page_right(pool: &[u8], at: usize, stride: usize, rows: usize, page: usize) -> bool
    requires { (RowsFit pool.now at stride rows page) × (page ≤ page_size) }
    ensures { result ≡ rows_zero pool.now at stride rows page }
{
    let mut sum = [0u8; Shape::PAGE];
    xor_pages(&mut sum[..page], pool, at, stride, rows, rows);
    all_zero(&sum[..page])
}
