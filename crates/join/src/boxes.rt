// The rectangles of footprints, and the least box around those of a run.
ghost use Rattle.std.specs.Prelude.{◌≡◌, true, false, ◌<◌, length, get_or};
ghost use Rattle.rules.specs.Sizes.{bad_sizes};
ghost use Rattle.rules.specs.Register.{rectangle, bad_entry};
ghost use Rattle.grid.specs.Tiles.{Near};
ghost use Rattle.rules.specs.JoinSteps.{around_span, around as around_is, boxed};
ghost use Rattle.tables.specs.Entries.{good_entries};
ghost use Rattle.join.specs.Boxes.{Holds};

use rules::{Grid, Rect, Span};
use tables::register;

// The least span around two.
#[tactic(auto, unfolding(rules::specs::JoinSteps::around_span))]
fn around_span(a: Span, b: Span) -> Span
    ensures { result ≡ around_span a b }
{
    Span {
        lo: a.lo.min(b.lo),
        hi: a.hi.max(b.hi),
    }
}

// The least box around two rectangles.
#[tactic(auto, unfolding(rules::specs::JoinSteps::around))]
fn around(a: Rect, b: Rect) -> Rect
    ensures { result ≡ around_is a b }
{
    Rect {
        x: around_span(a.x, b.x),
        y: around_span(a.y, b.y),
    }
}

// The rectangle of a footprint that may be named.
pub(crate) fn footprint(g: Grid, reg: &[u32], i: u32) -> Rect
    requires { (bad_sizes g ≡ false) × (bad_entry g reg.now i ≡ false) }
    ensures { (result ≡ rectangle g reg.now i) × Near result }
{
    register::footprint(g, reg, i as usize)
}

// The least box around the footprints of a run that has some.
pub(crate) fn box_of(g: Grid, reg: &[u32], run: &[u32]) -> Rect
    requires { (bad_sizes g ≡ false) × (good_entries g reg.now run.now ≡ true) × (0 < length run.now) }
    ensures { (result ≡ boxed g reg.now (rectangle g reg.now (get_or run.now 0 0)) run.now) × Holds g reg.now result run.now }
{
    let mut b = footprint(g, reg, run[0]);
    for i in run {
        b = around(b, footprint(g, reg, *i));
    }
    b
}
