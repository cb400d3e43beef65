// The first row is taken: a group or a tile is opened, a footprint is handed out; again and again until enough are given.
ghost use Rattle.std.specs.Prelude.{◌≡◌, List, ◌++◌, ℕ, ◌+◌, ◌*◌, ◌≤◌, ◌<◌, length, take, drop};
ghost use Rattle.rules.specs.Front.{rows};
ghost use Rattle.rules.specs.Walk.{row_numbers, row_writes, item_move};
ghost use Rattle.rules.specs.declared.Item.TheVariants.{Footprint};
ghost use Rattle.walk.specs.Outward.{lent_by};
ghost use Rattle.walk.specs.Taking.{Moved, Taken, Ran};

use crate::batch::{BATCH_NUMBERS, Fill, flush};
use crate::ready::Outward;
use rules::{Item, Row};

// The numbers that a given row writes.
pub(crate) const ROW_NUMBERS: usize = 2;

// Where the waiting rows begin, and how many rows are given.
#[derive(Clone, Copy)]
pub(crate) struct At {
    pub(crate) head: usize,
    pub(crate) given: usize,
}

impl Outward<'_> {
    // Writes a given row behind those given before: the footprint and its row's square.
    fn give(&self, i: u32, square: u64, given: usize, out: &mut [u64])
        requires { row_numbers * given + row_numbers ≤ length out.old }
        ensures { out.new ≡ take (row_numbers * given) out.old ++ (row_writes self.now.g self.now.reg.now self.now.q i square ++ drop (row_numbers * (given + 1)) out.old) }
    {
        out[ROW_NUMBERS * given] = u64::from(i);
        out[ROW_NUMBERS * given + 1] = square;
    }

    // A footprint is handed out; one that no entry may name is damage.
    fn take_footprint(&self, s: At, i: u32, square: u64, out: &mut [u64]) -> Option<At>
        requires { (s.head < 18446744073709551615) × (row_numbers * s.given + row_numbers ≤ length out.old) }
        ensures { (front : List ℕ) → s.head < length (rows front) → Moved (item_move self.now.g (lent_by self.now) self.now.q square (Footprint i)) front out.old front out.new s result }
    {
        if tables::bad_entry(self.g, self.reg, i) {
            return None;
        }
        self.give(i, square, s.given, out);
        Some(At {
            head: s.head + 1,
            given: s.given + 1,
        })
    }

    // What a row stands for is opened or handed out.
    fn take_item(
        &self,
        front: &mut [u64],
        batch: &mut [u64; BATCH_NUMBERS],
        s: At,
        row: Row,
        out: &mut [u64],
    ) -> Option<At>
        requires head_there { (s.head < length (rows front.old)) × (row_numbers * s.given + row_numbers ≤ length out.old) }
        ensures { Moved (item_move self.now.g (lent_by self.now) self.now.q row.square row.item) front.old out.old front.new out.new s result }
    {
        let fresh = Fill {
            head: s.head + 1,
            count: 0,
        };
        let f = match row.item {
            Item::Group(d, level) => self.open_group(front, batch, fresh, d, level)?,
            Item::Tile(tile) => self.open_tile(front, batch, fresh, tile)?,
            Item::Footprint(i) => return self.take_footprint(s, i, row.square, out),
        };
        Some(At {
            head: flush(front, batch, f),
            given: s.given,
        })
    }

    // Takes the first waiting row; damage is None.
    fn take_one(
        &self,
        front: &mut [u64],
        batch: &mut [u64; BATCH_NUMBERS],
        s: At,
        out: &mut [u64],
    ) -> Option<At>
        requires head_there { (s.head < length (rows front.old)) × (row_numbers * s.given + row_numbers ≤ length out.old) }
        ensures { Taken self.now.g (lent_by self.now) self.now.q front.old out.old front.new out.new s result }
    {
        let row = Row::try_from(front::row_at(front, s.head)).ok()?;
        self.take_item(front, batch, s, row, out)
    }

    // Takes rows, those from `head` on waiting, until j are given or none waits; None where damage is met.
    pub(crate) fn run(
        &self,
        front: &mut [u64],
        head: usize,
        j: usize,
        out: &mut [u64],
    ) -> Option<At>
        requires room { (head ≤ length (rows front.old)) × (row_numbers * j ≤ length out.old) }
        ensures { Ran self.now.g (lent_by self.now) self.now.q front.old out.old front.new out.new head j result }
    {
        let mut batch = [0; BATCH_NUMBERS];
        let n = front::whole(front);
        let mut s = At { head, given: 0 };
        while s.given < j && s.head < n {
            s = self.take_one(front, &mut batch, s, out)?;
        }
        Some(s)
    }
}
