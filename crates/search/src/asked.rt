// What a search asks: the tables that it reads, its point and its radius, all judged but what the entries hold.

ghost use Rattle.std.specs.Prelude.{◌≡◌, ◌≤◌, false, MatchResult};
ghost use Rattle.rules.specs.Sizes.{most_radius, bad_sizes, bad_point};
ghost use Rattle.rules.specs.Tables.{bad_lengths};
ghost use Rattle.rules.specs.Refusals.{refuse};
ghost use Rattle.rules.specs.Search.{search_verdict};

use numbers::Form;
use rules::{Grid, Point, Refusal};
use tables::{Lent, register};

#[derive(Drop)]
pub(crate) struct Asked<'a, F: Form> {
    pub g: Grid,
    pub t: Lent<'a, F>,
    pub q: Point,
    pub r: u32,
    ghost sizes: { bad_sizes g ≡ false },
    ghost lengths: { bad_lengths g t ≡ false },
    ghost place: { bad_point g q ≡ false },
    ghost radius: { r ≤ most_radius },
}

impl<'a, F: Form> Asked<'a, F> {
    // Judges refusals 1, 2, 4 and 5, in this order.
    pub(crate) fn new(g: Grid, t: &Lent<'a, F>, q: Point, r: u32) -> Result<Self, Refusal>
        ensures { MatchResult result (λ a. (a.g ≡ g) × (a.t ≡ t.now) × (a.q ≡ q) × (a.r ≡ r)) (λ v. search_verdict g t.now q r ≡ refuse v) }
    {
        if grid::bad_sizes(g) {
            return Err(Refusal::Sizes);
        }
        if register::bad_lengths(g, t.reg, t.starts) {
            return Err(Refusal::Lengths);
        }
        if grid::bad_point(g, q) {
            return Err(Refusal::Place);
        }
        if rules::MOST_RADIUS < r {
            return Err(Refusal::Radius);
        }
        let t = Lent {
            reg: t.reg,
            starts: t.starts,
            entries: t.entries,
        };
        Ok(Asked { g, t, q, r })
    }
}
