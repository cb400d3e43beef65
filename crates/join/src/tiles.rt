// A tile of R with one of S, and the loops over their classes.
ghost use Rattle.std.specs.Prelude.{◌≡◌, ◌+◌, ◌≤◌, ◌<◌, length};
ghost use Rattle.rules.specs.Sizes.{tile_count};
ghost use Rattle.rules.specs.Tables.{run_no};
ghost use Rattle.rules.specs.Join.{class_pairs};
ghost use Rattle.join.specs.Keeping.{state, kept, most_pairs};
ghost use Rattle.join.specs.Boxes.{RunOf};
ghost use Rattle.join.specs.Levels.{position_of, marked_pairs};

use super::keep::Found;
use super::places::{run, run_no};
use super::runs::{Run, Runs};
use super::sides::Sides;

// R's tile t and S's tile u, which lies at position p from it.
#[derive(Drop)]
pub(crate) struct Tiles<'a> {
    pub of: &'a Sides<'a>,
    pub t: u32,
    pub u: u32,
    pub p: u32,
    ghost t_on_grid: { t < tile_count of.now.g },
    ghost u_on_grid: { u < tile_count of.now.g },
    ghost placed: { p ≡ position_of of.now.g t u },
}

impl<'a> Tiles<'a> {
    // R's run of class a with all of S's tile.
    pub(crate) fn of_class(&self, a: u32, found: &mut Found<'_>)
        requires { let s = self.now.of.now in (a < 16) × (found.old.pairs + length (class_pairs s.g s.left s.right s.r self.now.t self.now.u a) ≤ most_pairs) }
        ensures same_memory { found.new.out.ghost_name ≡ found.old.out.ghost_name }
        ensures kept { let s = self.now.of.now in state found.new.pairs found.new.out.now ≡ kept (state found.old.pairs found.old.out.now) (class_pairs s.g s.left s.right s.r self.now.t self.now.u a) }
    {
        let sides = self.of;
        let no = run_no(self.t, a);
        let entries = run(&sides.left, no);
        if entries.is_empty() {
            return;
        }
        let left = Run::new(sides.g, &sides.left, no, entries);
        for b in 0..16 {
            self.of_marked(a, &left, b, found);
        }
    }

    // R's run of class a with S's run of class b, where the two are joined.
    fn of_marked(&self, a: u32, left: &Run<'a>, b: u32, found: &mut Found<'_>)
        requires { let s = self.now.of.now in RunOf s.g s.left (run_no self.now.t a) left.now.reg.now left.now.no left.now.entries.now left.now.around × (a < 16) × (b < 16) × (found.old.pairs + length (marked_pairs s.g s.left.reg s.right s.r self.now.t self.now.u a left.now.entries.now b) ≤ most_pairs) }
        ensures same_memory { found.new.out.ghost_name ≡ found.old.out.ghost_name }
        ensures kept { let s = self.now.of.now in state found.new.pairs found.new.out.now ≡ kept (state found.old.pairs found.old.out.now) (marked_pairs s.g s.left.reg s.right s.r self.now.t self.now.u a left.now.entries.now b) }
    {
        let sides = self.of;
        let no = run_no(self.u, b);
        let entries = run(&sides.right, no);
        if entries.is_empty() || !grid::is_on(sides.marks_of(a, b), self.p) {
            return;
        }
        let right = Run::new(sides.g, &sides.right, no, entries);
        Runs {
            g: sides.g,
            r: sides.r,
            left: *left,
            right,
        }
        .pairs(found);
    }
}
