// What a walk reads, once it is judged: a grid, tables of its lengths, and a point on it.
ghost use Rattle.std.specs.Prelude.{◌≡◌, false};
ghost use Rattle.rules.specs.Sizes.{bad_sizes, bad_point};
ghost use Rattle.rules.specs.Tables.{tables, bad_lengths};

use rules::{Grid, Point, Refusal};
use tables::{Lent, register};

// The lent tables, read outward from q: refusals 1, 2 and 4 do not apply.
#[derive(Clone, Copy)]
pub(crate) struct Outward<'a> {
    pub(crate) g: Grid,
    pub(crate) reg: &'a [u32],
    pub(crate) starts: &'a [u32],
    pub(crate) entries: &'a [u32],
    pub(crate) q: Point,
    ghost sizes: { bad_sizes g ≡ false },
    ghost lengths: { bad_lengths g (tables reg.now starts.now entries.now) ≡ false },
    ghost point: { bad_point g q ≡ false },
}

impl<'a> Outward<'a> {
    ghost use Rattle.walk.specs.Outward.{Opened};

    // The lent tables, read outward from q. Refused: 1, 2 and 4, in this order.
    pub(crate) fn new(g: Grid, t: &Lent<'a, u32>, q: Point) -> Result<Outward<'a>, Refusal>
        ensures { Opened g t.now q result }
    {
        if grid::bad_sizes(g) {
            return Err(Refusal::Sizes);
        }
        if register::bad_lengths(g, t.reg, t.starts) {
            return Err(Refusal::Lengths);
        }
        if grid::bad_point(g, q) {
            return Err(Refusal::Place);
        }
        Ok(Outward {
            g,
            reg: t.reg,
            starts: t.starts,
            entries: t.entries,
            q,
        })
    }
}
