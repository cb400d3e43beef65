// What lies within r: two rectangles of each other, and the columns and rows of a search's box.

ghost use Rattle.std.specs.Prelude.{◌≡◌, ◌*◌, ◌≤◌};
ghost use Rattle.rules.specs.Sizes.{most_tiles, most_side, most_radius};
ghost use Rattle.rules.specs.Distance.{within as within_is, point as point_is};
ghost use Rattle.rules.specs.Box.{first_column, last_column};
ghost use Rattle.grid.specs.Tiles.{Near};

use rules::{Grid, Point, Rect, Span};

// A point as a rectangle of one.
pub fn point(q: Point) -> Rect
    ensures { result ≡ point_is q }
{
    Rect {
        x: Span { lo: q.x, hi: q.x },
        y: Span { lo: q.y, hi: q.y },
    }
}

// Whether two rectangles lie within r of each other.
pub fn within(r: u32, a: Rect, b: Rect) -> bool
    requires { Near a × Near b }
    ensures { result ≡ within_is r a b }
{
    crate::square(a, b) <= u64::from(r) * u64::from(r)
}

// The first column within r of a coordinate.
pub fn first_column(g: Grid, r: u32, x: u32) -> u32
    ensures { result ≡ first_column g r x }
{
    crate::column(g, x.saturating_sub(r))
}

// The last column within r of a coordinate.
pub fn last_column(g: Grid, r: u32, x: u32) -> u32
    requires { (1 ≤ g.n) × (x ≤ most_tiles * most_side) × (r ≤ most_radius) }
    ensures { result ≡ last_column g r x }
{
    crate::column(g, x + r).min(g.n - 1)
}
