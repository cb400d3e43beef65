// What a build and a check let pass: sizes and a register that meet none of refusals 1, 2 and 3.

ghost use Rattle.std.specs.Prelude.{◌≡◌, ◌+◌, ◌≤◌, IfOk};
ghost use Rattle.rules.specs.Register.{count};
ghost use Rattle.rules.specs.Refusals.{pass, as_verdict};
ghost use Rattle.rules.specs.Build.{register_verdict};
ghost use Rattle.rules.specs.Tables.{runs};
ghost use Rattle.index.specs.Tiles.{Lies};
ghost use Rattle.index.specs.Judged.{AllStarts};

use numbers::Form;
use rules::{Grid, Refusal};
use tables::register;

// Sizes and a register that were judged: every footprint lies on the grid.
#[derive(Drop)]
pub(crate) struct Judged<'a, F: Form> {
    pub g: Grid,
    pub reg: &'a [F],
    ghost sizes: { (1 ≤ g.n) × (g.n ≤ 64) × (1 ≤ g.side) × (g.side ≤ 16384) },
    ghost few: { count (F.numbers reg.now) ≤ 65536 },
    ghost lies: { Lies g (F.numbers reg.now) (runs g + 1) },
}

impl<'a, F: Form> Judged<'a, F> {
    // Refusals 1, 2 and 3, or none of them.
    pub fn of(g: Grid, reg: &'a [F], starts: &[F]) -> Result<Self, Refusal>
        ensures judges { as_verdict result ≡ register_verdict g (F.numbers reg.now) (F.numbers starts.now) pass }
        ensures keeps { IfOk result (λ j. (j.g ≡ g) × (F.numbers j.reg.now ≡ F.numbers reg.now) × AllStarts g (F.numbers starts.now)) }
    {
        if grid::bad_sizes(g) {
            return Err(Refusal::Sizes);
        }
        if register::bad_lengths(g, reg, starts) {
            return Err(Refusal::Lengths);
        }
        if let Some(i) = register::first_bad(g, reg) {
            return Err(Refusal::Footprint(i as u32));
        }
        Ok(Judged { g, reg })
    }
}
