// A tile: its runs of allowed classes judged, and their footprints brought.
ghost use Rattle.std.specs.Prelude.{◌≡◌, true, false, not, ◌||◌, [], ◌∷◌, map, ◌+◌, ◌*◌, ◌≤◌, ◌<◌, leb, length};
ghost use Rattle.laws.specs.Lists.{keep};
ghost use Rattle.rules.specs.Sizes.{tile_count};
ghost use Rattle.rules.specs.Register.{bad_entry};
ghost use Rattle.rules.specs.Tables.{good_runs};
ghost use Rattle.rules.specs.Search.{allowed_runs};
ghost use Rattle.rules.specs.Walk.{waiting_row, tile_brings};
ghost use Rattle.rules.specs.declared.Item.TheVariants.{Footprint};
ghost use Rattle.grid.specs.Places.{is_on};
ghost use Rattle.walk.specs.Fill.{add_all, brought, stands, Safe, Filled};
ghost use Rattle.walk.specs.Outward.{lent_by};
ghost use Rattle.tables.specs.Entries.{good_entries};
ghost use Rattle.walk.specs.Reading.{entry_rows, run_rows, Allows, Judged};

use crate::batch::{Fill, add};
use crate::ready::Outward;
use rules::{Grid, Item, Row, Three};
use tables::register;

impl Outward<'_> {
    // How many entries run k has, if it shows no damage.
    #[tactic(auto, using(tables::proofs::Runs::good_ends))]
    fn judge_run(&self, k: usize) -> Option<usize>
        requires { k + 1 < length self.now.starts.now }
        ensures { Judged self.now.g (lent_by self.now) (k ∷ []) 1 result }
    {
        let begin = self.starts[k] as usize;
        let past = self.starts[k + 1] as usize;
        if tables::bad_ends(self.entries.len(), begin, past)
            || tables::bad_entries(self.g, self.reg, &self.entries[begin..past])
        {
            return None;
        }
        Some(past - begin)
    }

    // How many entries the run of a class in a tile has, if it shows no damage; 0 where the mask does not allow the class.
    fn judge_class(&self, mask: u16, tile: u32, class: u32) -> Option<usize>
        requires { 16 * tile + class + 1 < length self.now.starts.now }
        ensures { Judged self.now.g (lent_by self.now) (keep (is_on mask class) (16 * tile + class) []) 1 result }
    {
        if !grid::is_on(mask, class) {
            return Some(0);
        }
        self.judge_run(16 * tile as usize + class as usize)
    }

    // The classes that a tile gives to a walk from q.
    fn tile_mask(&self, tile: u32) -> u16
        ensures { Allows self.now.g self.now.q tile result }
    {
        let row = grid::column(self.g, self.q.y);
        let col = grid::column(self.g, self.q.x);
        grid::allowed_mask(tile / self.g.n, tile % self.g.n, row, col)
    }

    // How many entries a tile's runs of allowed classes have, if none shows damage.
    pub(crate) fn judge_tile(&self, tile: u32) -> Option<usize>
        requires tile_there { tile < tile_count self.now.g }
        ensures { Judged self.now.g (lent_by self.now) (allowed_runs self.now.g self.now.q tile) 16 result }
    {
        let mask = self.tile_mask(tile);
        let mut count = 0;
        for class in 0..16 {
            count += self.judge_class(mask, tile, class)?;
        }
        Some(count)
    }

    // A footprint as a waiting row.
    fn footprint_row(&self, i: u32) -> Three
        requires may_stand { bad_entry self.now.g self.now.reg.now i ≡ false }
        ensures { result ≡ waiting_row self.now.g self.now.reg.now self.now.q (Footprint i) }
    {
        let a = register::footprint(self.g, self.reg, i as usize);
        Three::from(Row {
            square: grid::square(grid::near::point(self.q), a),
            item: Item::Footprint(i),
        })
    }

    // Entries, all of which may stand, are brought as footprints.
    fn add_entries(
        &self,
        front: &mut [u64],
        batch: &mut [u64],
        mut f: Fill,
        entries: &[u32],
    ) -> Option<Fill>
        requires safe { Safe front.old batch.old f }
        requires may_stand { good_entries self.now.g self.now.reg.now entries.now ≡ true }
        ensures { Filled front.new batch.new result (add_all (stands front.old batch.old f) (entry_rows self.now.g self.now.reg.now self.now.q entries.now)) }
    {
        for i in entries {
            f = add(front, batch, f, self.footprint_row(*i))?;
        }
        Some(f)
    }

    // The run of a class in a tile, which shows no damage, is brought if the mask allows the class.
    fn add_class(
        &self,
        front: &mut [u64],
        batch: &mut [u64],
        f: Fill,
        mask: u16,
        tile: u32,
        class: u32,
    ) -> Option<Fill>
        requires safe { Safe front.old batch.old f }
        requires run_there { 16 * tile + class + 1 < length self.now.starts.now }
        requires no_damage { good_runs self.now.g (lent_by self.now) (keep (is_on mask class) (16 * tile + class) []) ≡ true }
        ensures { Filled front.new batch.new result (add_all (stands front.old batch.old f) (run_rows self.now.g (lent_by self.now) self.now.q (keep (is_on mask class) (16 * tile + class) []))) }
    {
        if !grid::is_on(mask, class) {
            return Some(f);
        }
        let k = 16 * tile as usize + class as usize;
        let run = &self.entries[self.starts[k] as usize..self.starts[k + 1] as usize];
        self.add_entries(front, batch, f, run)
    }

    // The footprints of a tile's allowed classes, whose runs show no damage, are brought.
    pub(crate) fn add_tile(
        &self,
        front: &mut [u64],
        batch: &mut [u64],
        mut f: Fill,
        tile: u32,
    ) -> Option<Fill>
        requires safe { Safe front.old batch.old f }
        requires tile_there { tile < tile_count self.now.g }
        requires no_damage { good_runs self.now.g (lent_by self.now) (allowed_runs self.now.g self.now.q tile) ≡ true }
        ensures { Filled front.new batch.new result (add_all (stands front.old batch.old f) (run_rows self.now.g (lent_by self.now) self.now.q (allowed_runs self.now.g self.now.q tile))) }
    {
        let mask = self.tile_mask(tile);
        for class in 0..16 {
            f = self.add_class(front, batch, f, mask, tile, class)?;
        }
        Some(f)
    }

    // A tile brings the footprints of its allowed classes; no such tile and a damaged run are damage.
    pub(crate) fn open_tile(
        &self,
        front: &mut [u64],
        batch: &mut [u64],
        f: Fill,
        tile: u32,
    ) -> Option<Fill>
        requires safe { Safe front.old batch.old f }
        ensures { Filled front.new batch.new result (brought (stands front.old batch.old f) (leb (tile_count self.now.g) tile || not (good_runs self.now.g (lent_by self.now) (allowed_runs self.now.g self.now.q tile))) (map (waiting_row self.now.g self.now.reg.now self.now.q) (tile_brings self.now.g (lent_by self.now) self.now.q tile))) }
    {
        if grid::tile_count(self.g) <= tile as usize {
            return None;
        }
        self.judge_tile(tile)?;
        self.add_tile(front, batch, f, tile)
    }
}
