// A tile judged: its square, and the runs of its allowed classes, neighbouring runs as one part of the entries.

ghost use Rattle.std.specs.Prelude.{[], ◌∷◌, ◌+◌, ◌-◌, ◌*◌, ◌<◌, ◌^◌, length};
ghost use Rattle.laws.specs.Lists.{filter};
ghost use Rattle.rules.specs.Sizes.{tile_no, tile_count};
ghost use Rattle.rules.specs.Search.{allowed_run, allowed_runs};
ghost use Rattle.search.specs.Reading.{tile_most, Allows, runs_in, JudgedRuns, Lies, Holds};

use crate::asked::Asked;
use numbers::Form;
use rules::{Part, Rect};

// The hits found so far, and a part of the entries that is held back, to be read with its neighbours.
#[derive(Clone, Copy)]
pub(crate) struct Held {
    pub part: Part,
    pub count: usize,
}

impl<F: Form> Asked<'_, F> {
    // Run k, behind a part of the entries that is held back: it joins the part where it begins at the part's end; else the part is read, and
    // the run is held back in its place. Nothing where damage is met.
    fn hold<L: Form>(&self, k: usize, held: Held, lent: &mut [L]) -> Option<Held>
        requires has_ends { k + 1 < length self.now.t.starts }
        requires lies { Lies self.now.t.entries held.part }
        requires countable { held.count + (held.part.past - held.part.begin) < 2 ^ 63 }
        ensures { Holds self.now.g self.now.t self.now.q self.now.r (k ∷ []) held (L.numbers lent.old) result (L.numbers lent.new) }
    {
        let t = &self.t;
        let begin = F::get(t.starts, k) as usize;
        let past = F::get(t.starts, k + 1) as usize;
        if tables::bad_ends(F::count(t.entries), begin, past) {
            return None;
        }
        if begin == held.part.past {
            let part = Part {
                begin: held.part.begin,
                past,
            };
            return Some(Held {
                part,
                count: held.count,
            });
        }
        let count = self.judge_part(held.part, held.count, lent)?;
        let part = Part { begin, past };
        Some(Held { part, count })
    }

    // A class of a tile, behind a part that is held back: its run, where the class is allowed.
    fn hold_class<L: Form>(
        &self,
        tile: u32,
        mask: u16,
        class: u32,
        held: Held,
        lent: &mut [L],
    ) -> Option<Held>
        requires on_grid { (tile < tile_count self.now.g) × (class < 16) }
        requires allows { Allows self.now.g self.now.q tile mask }
        requires lies { Lies self.now.t.entries held.part }
        requires countable { held.count + (held.part.past - held.part.begin) < 2 ^ 63 }
        ensures { Holds self.now.g self.now.t self.now.q self.now.r (filter (allowed_run self.now.g self.now.q) ((16 * tile + class) ∷ [])) held (L.numbers lent.old) result (L.numbers lent.new) }
    {
        if !grid::is_on(mask, class) {
            return Some(held);
        }
        self.hold(16 * tile as usize + class as usize, held, lent)
    }

    // The allowed classes of a tile: every run is judged, and the hits are counted and kept.
    fn judge_tile<L: Form>(
        &self,
        tile: u32,
        mask: u16,
        count: usize,
        lent: &mut [L],
    ) -> Option<usize>
        requires on_grid { tile < tile_count self.now.g }
        requires allows { Allows self.now.g self.now.q tile mask }
        requires countable { count < 2 ^ 62 }
        ensures { JudgedRuns self.now.g self.now.t self.now.q self.now.r (allowed_runs self.now.g self.now.q tile) tile_most count (L.numbers lent.old) result (L.numbers lent.new) }
    {
        let part = Part { begin: 0, past: 0 };
        let mut held = Held { part, count };
        for class in 0..16 {
            held = self.hold_class(tile, mask, class, held, lent)?;
        }
        self.judge_part(held.part, held.count, lent)
    }

    // The tile of a row and a column: its allowed classes, or nothing where its square is over r×r.
    pub(crate) fn judge_at<L: Form>(
        &self,
        row: u32,
        col: u32,
        count: usize,
        lent: &mut [L],
    ) -> Option<usize>
        requires on_grid { (row < self.now.g.n) × (col < self.now.g.n) }
        requires countable { count < 2 ^ 62 }
        ensures { JudgedRuns self.now.g self.now.t self.now.q self.now.r (runs_in self.now.g self.now.q self.now.r (tile_no self.now.g row col ∷ [])) tile_most count (L.numbers lent.old) result (L.numbers lent.new) }
    {
        let square = Rect {
            x: grid::cover(self.g.side, col),
            y: grid::cover(self.g.side, row),
        };
        if !grid::near::within(self.r, grid::near::point(self.q), square) {
            return Some(count);
        }
        let tile = grid::tile_no(self.g, row, col);
        let at_row = grid::column(self.g, self.q.y);
        let at_col = grid::column(self.g, self.q.x);
        let mask = grid::allowed_mask(row, col, at_row, at_col);
        self.judge_tile(tile, mask, count, lent)
    }
}
