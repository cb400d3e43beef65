// Leaves over a grid: sizes, columns and tiles, spans and distances, classes and the sets of them that a search reads.
#![tactic(auto)]

pub mod marks; // marks.rt: the marks of a join
pub mod near; // near.rt: what lies within r

ghost use Rattle.std.specs.Prelude.{◌≡◌, ℕ, ◌≤◌, ◌<◌, max};
ghost use Rattle.rules.specs.Sizes.{bad_sizes, off_grid, bad_point, column as column_is, tile_no, tile_count};
ghost use Rattle.rules.specs.Span.{cover as cover_is, gap as gap_is, meets as meets_is, begins as begins_is, ends as ends_is, place as place_is};
ghost use Rattle.rules.specs.Distance.{square as square_is};
ghost use Rattle.rules.specs.Classes.{allowed};
ghost use Rattle.grid.specs.Places.{place_no, is_on};
ghost use Rattle.grid.specs.Tiles.{class_at, Near};

use rules::{Grid, Point, Rect, Span};
use std::cmp::Ordering;

// The classes that a tile gives, a mask with bit c for class c: by before, level, after in y, then in x.
const ALLOWED: [[u16; 3]; 3] = [
    [0x0505, 0x5555, 0x0055],
    [0x0F0F, 0xFFFF, 0x00FF],
    [0x0303, 0x3333, 0x0033],
];

// Whether n or side is outside its range.
pub fn bad_sizes(g: Grid) -> bool
    ensures { result ≡ bad_sizes g }
{
    !(1..=rules::MOST_TILES).contains(&g.n) || !(1..=rules::MOST_SIDE).contains(&g.side)
}

// Whether a coordinate lies past n×side−1.
pub fn off_grid(g: Grid, c: u32) -> bool
    ensures { result ≡ off_grid g c }
{
    u64::from(g.n) * u64::from(g.side) <= u64::from(c)
}

// Whether a point lies off the grid.
pub fn bad_point(g: Grid, q: Point) -> bool
    ensures { result ≡ bad_point g q }
{
    off_grid(g, q.x) || off_grid(g, q.y)
}

// The column of x, or the row of y; 0 on a grid whose tiles have no side.
pub fn column(g: Grid, c: u32) -> u32
    ensures { result ≡ column_is g c }
{
    c.checked_div(g.side).unwrap_or(0)
}

// How many tiles there are.
pub fn tile_count(g: Grid) -> usize
    ensures { result ≡ tile_count g }
{
    let n = g.n as usize;
    n * n
}

// The number of a tile on the grid.
pub fn tile_no(g: Grid, row: u32, col: u32) -> u32
    requires { (g.n ≤ 64) × (row < g.n) × (col < g.n) }
    ensures { (result ≡ tile_no g row col) × (result < tile_count g) × (result < 4096) }
{
    row * g.n + col
}

// What separates two spans, 0 where they share a coordinate.
pub fn gap(a: Span, b: Span) -> u32
    ensures { (result ≡ gap_is a b) × (result ≤ max a.lo b.lo) }
{
    b.lo.saturating_sub(a.hi).max(a.lo.saturating_sub(b.hi))
}

// The coordinates of a tile column on the grid.
pub fn cover(side: u32, c: u32) -> Span
    requires { (1 ≤ side) × (side ≤ 16384) × (c < 64) }
    ensures { (result ≡ cover_is side c) × (result.lo ≤ 1048576) }
{
    Span {
        lo: c * side,
        hi: (c + 1) * side - 1,
    }
}

// Whether two spans share a coordinate.
pub fn meets(a: Span, b: Span) -> bool
    ensures { result ≡ meets_is a b }
{
    b.lo <= a.hi && a.lo <= b.hi
}

// Whether a span begins before tile column c.
pub fn begins(side: u32, c: u32, s: Span) -> bool
    ensures { result ≡ begins_is side c s }
{
    u64::from(s.lo) < u64::from(c) * u64::from(side)
}

// Whether a span ends after tile column c.
pub fn ends(side: u32, c: u32, s: Span) -> bool
    requires { 1 ≤ side }
    ensures { result ≡ ends_is side c s }
{
    (u64::from(c) + 1) * u64::from(side) <= u64::from(s.hi)
}

// The class of a rectangle in the tile of a row and a column.
pub fn class_at(g: Grid, row: u32, col: u32, a: Rect) -> u32
    requires { 1 ≤ g.side }
    ensures { (result ≡ class_at g row col a) × (result < 16) }
{
    8 * u32::from(begins(g.side, col, a.x))
        + 4 * u32::from(ends(g.side, col, a.x))
        + 2 * u32::from(begins(g.side, row, a.y))
        + u32::from(ends(g.side, row, a.y))
}

// The sum of the two gaps' squares.
pub fn square(a: Rect, b: Rect) -> u64
    requires { Near a × Near b }
    ensures { (result ≡ square_is a b) × (result ≤ 2199023255552) }
{
    let dx = u64::from(gap(a.x, b.x));
    let dy = u64::from(gap(a.y, b.y));
    dx * dx + dy * dy
}

// How column c lies to column d, as an index of the tables: 0 before it, 1 level with it, 2 after it.
pub fn place(c: u32, d: u32) -> usize
    ensures { (result ≡ place_no (place_is c d)) × (result < 3) }
{
    match c.cmp(&d) {
        Ordering::Less => 0,
        Ordering::Equal => 1,
        Ordering::Greater => 2,
    }
}

// The classes that the tile of a row and a column gives to a search from the tile of qrow and qcol.
pub fn allowed_mask(row: u32, col: u32, qrow: u32, qcol: u32) -> u16
    ensures { (class : ℕ) → class < 16 → is_on result class ≡ allowed (place_is col qcol) (place_is row qrow) class }
{
    ALLOWED[place(row, qrow)][place(col, qcol)]
}

// Whether bit k of a mask is set.
pub fn is_on(mask: u16, k: u32) -> bool
    ensures { result ≡ is_on mask k }
{
    k < 16 && (mask >> k) % 2 == 1
}
