// A run of R joined with one of S, and the loops over their numbers.
ghost use Rattle.std.specs.Prelude.{◌≡◌, true, false, ◌+◌, ◌≤◌, ◌<◌, length};
ghost use Rattle.rules.specs.Sizes.{bad_sizes};
ghost use Rattle.rules.specs.Register.{rectangle, bad_entry};
ghost use Rattle.rules.specs.Tables.{run_at};
ghost use Rattle.rules.specs.Join.{lists};
ghost use Rattle.grid.specs.Tiles.{Near};
ghost use Rattle.join.specs.Keeping.{state, kept, most_pairs};
ghost use Rattle.join.specs.Boxes.{Holds, RunOf, by_distance, apart};
ghost use Rattle.tables.specs.Entries.{good_entries};
ghost use Rattle.join.specs.Levels.{one_pair, entry_pairs, runs_pairs};

use super::boxes::{box_of, footprint};
use super::keep::Found;
use rules::{Grid, Rect};
use tables::Lent;

// A run of some entries: its side's register, its number, its entries, and the least box around their footprints.
#[derive(Clone, Copy)]
pub(crate) struct Run<'a> {
    pub reg: &'a [u32],
    pub no: usize,
    pub entries: &'a [u32],
    pub around: Rect,
}

impl<'a> Run<'a> {
    // A side's run of this number, which has these entries.
    pub(crate) fn new(g: Grid, side: &Lent<'a, u32>, no: usize, entries: &'a [u32]) -> Run<'a>
        requires { (bad_sizes g ≡ false) × (entries.now ≡ run_at side.now no) × (good_entries g side.now.reg entries.now ≡ true) × (0 < length entries.now) }
        ensures { RunOf g side.now no result.reg.now result.no result.entries.now result.around }
    {
        let reg = side.reg;
        Run {
            reg,
            no,
            entries,
            around: box_of(g, reg, entries),
        }
    }
}

// A run of R and a run of S.
#[derive(Drop)]
pub(crate) struct Runs<'a> {
    pub g: Grid,
    pub r: u32,
    pub left: Run<'a>,
    pub right: Run<'a>,
    ghost sizes: { bad_sizes g ≡ false },
    ghost left_good: { good_entries g left.reg.now left.entries.now ≡ true },
    ghost left_held: { Holds g left.reg.now left.around left.entries.now },
    ghost right_good: { good_entries g right.reg.now right.entries.now ≡ true },
    ghost right_held: { Holds g right.reg.now right.around right.entries.now },
}

impl Runs<'_> {
    // Whether distance alone decides which pairs are listed.
    #[tactic(auto, unfolding(crate::specs::Boxes::by_distance))]
    fn by_distance(&self) -> bool
        ensures { let s = self.now in result ≡ by_distance s.g s.r s.left.no s.right.no }
    {
        true
    }

    // Whether no pair is listed whose footprints lie in two boxes.
    #[tactic(auto, unfolding(crate::specs::Boxes::apart))]
    fn apart(&self, a: Rect, b: Rect) -> bool
        requires { Near a × Near b }
        ensures { let s = self.now in result ≡ apart s.g s.r s.left.no s.right.no a b }
    {
        self.by_distance() && !grid::near::within(self.r, a, b)
    }

    // Whether footprint i of R, which has this rectangle, and footprint j of S are listed.
    fn listed(&self, i: u32, a: Rect, j: u32) -> bool
        requires { let s = self.now in (a ≡ rectangle s.g s.left.reg.now i) × Near a × (bad_entry s.g s.right.reg.now j ≡ false) }
        ensures { let s = self.now in result ≡ lists s.g s.left.reg.now s.right.reg.now s.r s.left.no s.right.no (i, j) }
    {
        grid::near::within(self.r, a, footprint(self.g, self.right.reg, j))
    }

    // R's number i, whose footprint is a, and S's number j, where they are listed.
    #[tactic(auto, unfolding(crate::specs::Levels::one_pair))]
    fn of_two(&self, i: u32, a: Rect, j: u32, found: &mut Found<'_>)
        requires { let s = self.now in (a ≡ rectangle s.g s.left.reg.now i) × Near a × (bad_entry s.g s.right.reg.now j ≡ false) × (found.old.pairs + length (one_pair s.g s.left.reg.now s.right.reg.now s.r s.left.no s.right.no i j) ≤ most_pairs) }
        ensures same_memory { found.new.out.ghost_name ≡ found.old.out.ghost_name }
        ensures kept { let s = self.now in state found.new.pairs found.new.out.now ≡ kept (state found.old.pairs found.old.out.now) (one_pair s.g s.left.reg.now s.right.reg.now s.r s.left.no s.right.no i j) }
    {
        found.keep(self.listed(i, a, j), i, j);
    }

    // R's number i with the numbers of S's run.
    fn of_entry(&self, i: u32, found: &mut Found<'_>)
        requires { let s = self.now in (bad_entry s.g s.left.reg.now i ≡ false) × (found.old.pairs + length (entry_pairs s.g s.left.reg.now s.right.reg.now s.r s.left.no s.right.no i s.right.entries.now) ≤ most_pairs) }
        ensures same_memory { found.new.out.ghost_name ≡ found.old.out.ghost_name }
        ensures kept { let s = self.now in state found.new.pairs found.new.out.now ≡ kept (state found.old.pairs found.old.out.now) (entry_pairs s.g s.left.reg.now s.right.reg.now s.r s.left.no s.right.no i s.right.entries.now) }
    {
        let a = footprint(self.g, self.left.reg, i);
        if self.apart(a, self.right.around) {
            return;
        }
        for j in self.right.entries {
            self.of_two(i, a, *j, found);
        }
    }

    // The numbers of R's run with those of S's.
    pub(crate) fn pairs(&self, found: &mut Found<'_>)
        requires { let s = self.now in found.old.pairs + length (runs_pairs s.g s.left.reg.now s.right.reg.now s.r s.left.no s.right.no s.left.entries.now s.right.entries.now) ≤ most_pairs }
        ensures same_memory { found.new.out.ghost_name ≡ found.old.out.ghost_name }
        ensures kept { let s = self.now in state found.new.pairs found.new.out.now ≡ kept (state found.old.pairs found.old.out.now) (runs_pairs s.g s.left.reg.now s.right.reg.now s.r s.left.no s.right.no s.left.entries.now s.right.entries.now) }
    {
        if self.apart(self.left.around, self.right.around) {
            return;
        }
        for i in self.left.entries {
            self.of_entry(*i, found);
        }
    }
}
