// The pool's shape (01, "The pool's bytes"), its constants and checked constructor.
#![tactic(auto)]

ghost use Rattle.std.specs.Prelude.{◌≡◌, true, ◌*◌, ◌≤◌, ◌<◌};
ghost use Rattle.rules.specs.Shape.{InZones, body_limit, byte_at, entry_limit, log_a, log_b, page_size, pool_size, row_at, row_size, shape, staging_size, zone_at, zone_cells, zone_size, zones_at};
ghost use Rattle.rules.specs.Header.{in_range};

use refusals::Refusal;

mod opened; // a pool opened, and its id

pub use opened::{Pool, id, open};

// Bytes of a page, data rows of a zone, pages of a row, zones: each in its range, and the page that of a version 1 header.
#[derive(Clone, Copy)]
pub struct Shape {
    pub page: usize,
    pub rows: usize,
    pub cols: usize,
    pub zones: usize,
    pub ghost ranged: { in_range (shape rows cols zones) ≡ true },
    pub ghost paged: { page ≡ page_size },
}

impl Shape {
    ghost use Rattle.layout.specs.Meaning.{checked, checked_of, shape_of};

    // Bytes of a page.
    pub const PAGE: usize = 256;
    // Entries of a log or a transaction, at most.
    pub const ENTRIES: usize = 127;
    // Bytes of a body, at most.
    pub const BODY: usize = 496;
    // Bytes of staging memory, at least.
    pub const STAGING: usize = 2032;

    // The shape with these numbers, or refusal 1: one is not in its range. The second clause ties the constants to 01's limits.
    pub fn new(rows: usize, cols: usize, zones: usize) -> Result<Shape, Refusal>
        ensures result_value { checked_of result ≡ checked (shape rows cols zones) }
        ensures limits { (Shape.PAGE ≡ page_size) × (Shape.ENTRIES ≡ entry_limit) × (Shape.BODY ≡ body_limit) × (Shape.STAGING ≡ staging_size) }
    {
        if !header::in_range(rows, cols, zones) {
            return Err(Refusal::Shape);
        }
        Ok(Shape {
            page: Shape::PAGE,
            rows,
            cols,
            zones,
        })
    }

    // The pool's length.
    pub fn size(self) -> usize
        ensures { result ≡ pool_size (shape_of self) }
    {
        (18 + self.zones * (self.rows + 1) * self.cols) * self.page
    }

    // Where log A begins.
    pub fn log_a(self) -> usize
        ensures { result ≡ log_a (shape_of self) }
    {
        2 * self.page
    }

    // Where log B begins.
    pub fn log_b(self) -> usize
        ensures { result ≡ log_b (shape_of self) }
    {
        10 * self.page
    }

    // Where the zones begin.
    pub fn zones_at(self) -> usize
        ensures { result ≡ zones_at (shape_of self) }
    {
        18 * self.page
    }

    // Bytes of a row.
    pub fn row_size(self) -> usize
        ensures { result ≡ row_size (shape_of self) }
    {
        self.cols * self.page
    }

    // Bytes of a zone.
    pub fn zone_size(self) -> usize
        ensures { result ≡ zone_size (shape_of self) }
    {
        (self.rows + 1) * (self.cols * self.page)
    }

    // The cells of a zone.
    pub fn cells(self) -> usize
        ensures { (result ≡ zone_cells (shape_of self)) × (result < 65536) }
    {
        self.rows * self.cols * (self.page / 64)
    }

    // Where zone `z` begins.
    pub fn zone_at(self, z: usize) -> usize
        requires { z ≤ self.zones }
        ensures { (result ≡ zone_at (shape_of self) z) × (result ≤ pool_size (shape_of self)) }
    {
        18 * self.page + z * ((self.rows + 1) * (self.cols * self.page))
    }

    // The place of byte `o` of row `r` of zone `z`.
    pub fn byte_at(self, z: usize, r: usize, o: usize) -> usize
        requires { (z < self.zones) × (r ≤ self.rows) × (o < row_size (shape_of self)) }
        ensures { result ≡ byte_at (shape_of self) z r o }
    {
        18 * self.page + ((z * (self.rows + 1) + r) * (self.cols * self.page) + o)
    }

    // The place of column `c` of zone `z` in the first row.
    pub fn column_at(self, z: usize, c: usize) -> usize
        requires { (z < self.zones) × (c < self.cols) }
        ensures { result ≡ byte_at (shape_of self) z 0 (c * self.page) }
    {
        self.byte_at(z, 0, c * self.page)
    }

    // The place in row `r` of the column of the place `t`.
    pub fn row_at(self, t: usize, r: usize) -> usize
        requires { InZones (shape_of self) t × (r ≤ self.rows) }
        ensures { result ≡ row_at (shape_of self) t r }
    {
        let row = self.row_size();
        let o = t - self.zones_at();
        self.byte_at(o / row / (self.rows + 1), r, o % row)
    }
}
