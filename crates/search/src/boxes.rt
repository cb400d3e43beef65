// The square's box judged: its rows, and the tiles of each.

ghost use Rattle.std.specs.Prelude.{◌<◌, ◌^◌};
ghost use Rattle.rules.specs.Search.{read_runs};
ghost use Rattle.rules.specs.Box.{box_row};
ghost use Rattle.search.specs.Reading.{box_most, row_most, runs_in, JudgedRuns};

use crate::asked::Asked;
use numbers::Form;

impl<F: Form> Asked<'_, F> {
    // The tiles of a row of the square's box.
    fn judge_row<L: Form>(&self, row: u32, count: usize, lent: &mut [L]) -> Option<usize>
        requires on_grid { row < self.now.g.n }
        requires countable { count < 2 ^ 61 }
        ensures { JudgedRuns self.now.g self.now.t self.now.q self.now.r (runs_in self.now.g self.now.q self.now.r (box_row self.now.g self.now.q self.now.r row)) row_most count (L.numbers lent.old) result (L.numbers lent.new) }
    {
        let first = grid::near::first_column(self.g, self.r, self.q.x);
        let last = grid::near::last_column(self.g, self.r, self.q.x);
        let mut found = count;
        for col in first..=last {
            found = self.judge_at(row, col, found, lent)?;
        }
        Some(found)
    }

    // All that a search visits: the rows of the square's box.
    pub(crate) fn judge_box<L: Form>(&self, lent: &mut [L]) -> Option<usize>
        ensures { JudgedRuns self.now.g self.now.t self.now.q self.now.r (read_runs self.now.g self.now.q self.now.r) box_most 0 (L.numbers lent.old) result (L.numbers lent.new) }
    {
        let first = grid::near::first_column(self.g, self.r, self.q.y);
        let last = grid::near::last_column(self.g, self.r, self.q.y);
        let mut found = 0;
        for row in first..=last {
            found = self.judge_row(row, found, lent)?;
        }
        Some(found)
    }
}
