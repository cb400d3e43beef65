// Two judged sides, and the loops over their tiles. Each loop of a join keeps the pairs of its level behind those found before.
ghost use Rattle.std.specs.Prelude.{◌≡◌, ◌+◌, ◌≤◌, ◌<◌, length};
ghost use Rattle.rules.specs.Sizes.{tile_count};
ghost use Rattle.rules.specs.Join.{tile_pairs, join_pairs};
ghost use Rattle.join.specs.Keeping.{state, kept, most_pairs};
ghost use Rattle.join.specs.Marks.{Nine, Marks};
ghost use Rattle.join.specs.Levels.{Judged, pairs_at, around_pairs};

use super::keep::Found;
use super::places::{has_tile, is_bare, position, tile_at};
use super::tiles::Tiles;
use rules::Grid;
use tables::Lent;

// R's tables and S's, which passed every judge, the radius, and the marks of all class pairs.
#[derive(Drop)]
pub(crate) struct Sides<'a> {
    pub g: Grid,
    pub left: Lent<'a, u32>,
    pub right: Lent<'a, u32>,
    pub r: u32,
    pub masks: [u16; 256],
    ghost judged: { Judged g left right },
    ghost marks: { Marks masks },
}

impl Sides<'_> {
    // The nine marks of R's class a and S's class b.
    pub(crate) fn marks_of(&self, a: u32, b: u32) -> u16
        requires { (a < 16) × (b < 16) }
        ensures { Nine result a b }
    {
        self.masks[16 * a as usize + b as usize]
    }

    // All pairs: how many there are, and as many of them as find room laid from the beginning on.
    pub(crate) fn pairs(&self, out: &mut [u32]) -> u64
        ensures { let s = self.now in state result out.new ≡ kept (state 0 out.old) (join_pairs s.g s.left s.right s.r) }
    {
        let mut found = Found { pairs: 0, out };
        for t in 0..self.g.n * self.g.n {
            self.of_tile(t, &mut found);
        }
        found.pairs
    }

    // R's tile t with all of S's tiles that are visited, unless it has no entries.
    fn of_tile(&self, t: u32, found: &mut Found<'_>)
        requires { let s = self.now in (t < tile_count s.g) × (found.old.pairs + length (around_pairs s.g s.left s.right s.r t) ≤ most_pairs) }
        ensures same_memory { found.new.out.ghost_name ≡ found.old.out.ghost_name }
        ensures kept { let s = self.now in state found.new.pairs found.new.out.now ≡ kept (state found.old.pairs found.old.out.now) (around_pairs s.g s.left s.right s.r t) }
    {
        if is_bare(&self.left, t) {
            return;
        }
        for p in 0..9 {
            self.of_position(t, p, found);
        }
    }

    // R's tile t with S's tile at position p from it, if there is one.
    fn of_position(&self, t: u32, p: u32, found: &mut Found<'_>)
        requires { let s = self.now in (t < tile_count s.g) × (p < 9) × (found.old.pairs + length (pairs_at s.g s.left s.right s.r t p) ≤ most_pairs) }
        ensures same_memory { found.new.out.ghost_name ≡ found.old.out.ghost_name }
        ensures kept { let s = self.now in state found.new.pairs found.new.out.now ≡ kept (state found.old.pairs found.old.out.now) (pairs_at s.g s.left s.right s.r t p) }
    {
        if !has_tile(self.g, t, p) {
            return;
        }
        self.of_tiles(t, tile_at(self.g, t, p), found);
    }

    // R's tile t with S's tile u, by R's classes, unless S's has no entries.
    fn of_tiles(&self, t: u32, u: u32, found: &mut Found<'_>)
        requires { let s = self.now in (t < tile_count s.g) × (u < tile_count s.g) × (found.old.pairs + length (tile_pairs s.g s.left s.right s.r t u) ≤ most_pairs) }
        ensures same_memory { found.new.out.ghost_name ≡ found.old.out.ghost_name }
        ensures kept { let s = self.now in state found.new.pairs found.new.out.now ≡ kept (state found.old.pairs found.old.out.now) (tile_pairs s.g s.left s.right s.r t u) }
    {
        if is_bare(&self.right, u) {
            return;
        }
        let p = position(self.g, t, u);
        let tiles = Tiles { of: self, t, u, p };
        for a in 0..16 {
            tiles.of_class(a, found);
        }
    }
}
