// Repair (01, "Repair and scrub"): the loss list judged, and lost pages rebuilt, at most one a column.
#![tactic(auto)]

ghost use Rattle.std.specs.Prelude.{◌≡◌, false, suc, ◌*◌, ◌^◌, ◌<◌, length};
ghost use Rattle.std.specs.Int.Count.{ones, count_trailing_zeros};
ghost use Rattle.rules.specs.Shape.{pool_size};
ghost use Rattle.rules.specs.Repair.{any_above, any_two, differences, repaired};
ghost use Rattle.layout.specs.Meaning.{shape_of};
ghost use Rattle.repair.specs.Column.{column_rebuilt};

use layout::Shape;

// Whether some mask has a bit above R. Two lines of one shape, here and below: a function for both would be handed the test.
pub fn any_above(s: Shape, lost: &[u16]) -> bool
    ensures { result ≡ any_above (shape_of s) lost.now }
{
    let end = 1u64 << (s.rows + 1);
    lost.iter().any(|&mask| end <= u64::from(mask))
}

// Whether some mask has two bits or more.
pub fn any_two(lost: &[u16]) -> bool
    ensures { result ≡ any_two lost.now }
{
    lost.iter().any(|&mask| 1 < mask.count_ones())
}

// The lost page of column `k`, counted zone by zone, becomes the exclusive or of the column's others. Answers how many bytes that altered.
fn rebuild_column(s: Shape, pool: &mut [u8], k: usize, mask: u16) -> usize
    requires { (length pool.old ≡ pool_size (shape_of s)) × (k < s.zones * s.cols) × (mask < 2 ^ suc s.rows) × (ones mask ≡ 1) }
    ensures { (pool.new ≡ column_rebuilt (shape_of s) pool.old k (count_trailing_zeros 16 mask)) × (result ≡ differences pool.old pool.new) }
{
    let at = s.column_at(k / s.cols, k % s.cols);
    let row = mask.trailing_zeros() as usize;
    columns::rebuild_page(pool, at, s.row_size(), s.rows + 1, row, s.page)
}

// Each lost page becomes the exclusive or of its column's others. Answers how many bytes that altered.
pub fn repair_pages(s: Shape, pool: &mut [u8], lost: &[u16]) -> usize
    requires { (length pool.old ≡ pool_size (shape_of s)) × (length lost.now ≡ s.zones * s.cols) × (any_above (shape_of s) lost.now ≡ false) × (any_two lost.now ≡ false) }
    ensures { (pool.new ≡ repaired (shape_of s) lost.now pool.old) × (result ≡ differences pool.old pool.new) }
{
    let mut altered = 0;
    for (k, &mask) in lost.iter().enumerate() {
        if mask != 0 {
            altered += rebuild_column(s, pool, k, mask);
        }
    }
    altered
}
