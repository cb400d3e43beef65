// The check: one pass over the starts and the counted entries.

ghost use Rattle.std.specs.Prelude.{◌≡◌, ◌<◌};
ghost use Rattle.laws.specs.Lists.{up_to, all as all_pass};
ghost use Rattle.rules.specs.Register.{count};
ghost use Rattle.rules.specs.Tables.{runs};
ghost use Rattle.index.specs.Check.{stands_at, is_run, run_right, is_right};
ghost use Rattle.index.specs.Judged.{AllStarts};

use crate::judged::Judged;
use numbers::Form;
use tables::register;

impl<F: Form> Judged<'_, F> {
    // Whether footprint i stands in the run of a class in the tile of a row and a column.
    #[tactic(auto, unfolding(crate::specs::Check::stands_at))]
    fn stands(&self, row: u32, col: u32, class: u32, i: usize) -> bool
        requires on_grid { (row < 64) × (col < 64) }
        requires recorded { i < count (F.numbers self.now.reg.now) }
        ensures { result ≡ stands_at self.now.g (F.numbers self.now.reg.now) row col class i }
    {
        let a = register::footprint(self.g, self.reg, i);
        grid::meets(grid::cover(self.g.side, col), a.x)
            && grid::meets(grid::cover(self.g.side, row), a.y)
            && grid::class_at(self.g, row, col, a) == class
    }

    // Whether a run is strictly ascending, and every entry of it a footprint that stands in run k.
    fn is_run(&self, k: usize, run: &[F]) -> bool
        requires { k < runs self.now.g }
        ensures { result ≡ is_run self.now.g (F.numbers self.now.reg.now) k (F.numbers run.now) }
    {
        let n = self.g.n as usize;
        let row = (k / 16 / n) as u32;
        let col = (k / 16 % n) as u32;
        let class = (k % 16) as u32;
        let all = register::count(self.reg);
        let mut least = 0;
        for j in 0..F::count(run) {
            let i = F::get(run, j) as usize;
            if least <= i && i < all && self.stands(row, col, class, i) {
                least = i + 1;
            } else {
                return false;
            }
        }
        true
    }

    // Whether run k's start does not fall, its end is within the entries, and what lies between is such a run.
    #[tactic(auto, unfolding(crate::specs::Check::run_right))]
    fn run_right(&self, starts: &[F], entries: &[F], k: usize) -> bool
        requires run { k < runs self.now.g }
        requires starts { AllStarts self.now.g (F.numbers starts.now) }
        ensures { result ≡ run_right self.now.g (F.numbers self.now.reg.now) (F.numbers starts.now) (F.numbers entries.now) k }
    {
        let begin = F::get(starts, k) as usize;
        let past = F::get(starts, k + 1) as usize;
        begin <= past && past <= F::count(entries) && self.is_run(k, F::part(entries, begin, past))
    }

    // Whether every run is right.
    fn runs_right(&self, starts: &[F], entries: &[F]) -> bool
        requires { AllStarts self.now.g (F.numbers starts.now) }
        ensures { result ≡ all_pass (run_right self.now.g (F.numbers self.now.reg.now) (F.numbers starts.now) (F.numbers entries.now)) (up_to (runs self.now.g)) }
    {
        (0..F::count(starts) - 1).all(|k| self.run_right(starts, entries, k))
    }

    // Whether the first start is 0, the last what the register needs, and every run is right: whether they are what the build leaves.
    #[tactic(auto, unfolding(crate::specs::Check::is_right))]
    pub fn is_right(&self, starts: &[F], entries: &[F]) -> bool
        requires { AllStarts self.now.g (F.numbers starts.now) }
        ensures { result ≡ is_right self.now.g (F.numbers self.now.reg.now) (F.numbers starts.now) (F.numbers entries.now) }
    {
        let last = F::count(starts) - 1;
        F::get(starts, 0) == 0
            && F::get(starts, last) as usize == self.total()
            && self.runs_right(starts, entries)
    }
}
