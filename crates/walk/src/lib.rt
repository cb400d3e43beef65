// The walk outward from a point, over lent tables and a lent front: start and ask.
#![tactic(auto)]

mod ready; // ready.rt: the lent tables, read outward from a point
mod batch; // batch.rt: new rows gathered in order, and merged into the waiting rows
mod tile; // tile.rt: a tile's runs judged, and its footprints
mod group; // group.rt: a group's tiles, and the next group
mod take; // take.rt: the first row is taken, until enough are given

ghost use Rattle.std.specs.Prelude.{◌≡◌, true, false, [], ◌+◌, ◌*◌, ◌≤◌, ◌<◌, length, take};
ghost use Rattle.laws.specs.Lists.{each};
ghost use Rattle.rules.specs.Sizes.{tile_count, tile_of};
ghost use Rattle.rules.specs.Register.{count};
ghost use Rattle.rules.specs.Tables.{run_at, good_runs};
ghost use Rattle.rules.specs.Refusals.{paper, paper_answer};
ghost use Rattle.rules.specs.Search.{allowed_runs};
ghost use Rattle.rules.specs.Front.{rows, laid, directions};
ghost use Rattle.rules.specs.Walk.{group_if, start_front, start_room, row_numbers, machine, spoiled, finish, walk_at, refused_walk, walk_point, whole_rows, ask_outcome, begun, asks};
ghost use Rattle.walk.specs.Fill.{add_all, stands, Safe, Filled};
ghost use Rattle.walk.specs.Outward.{lent_by};
ghost use Rattle.walk.specs.Reading.{run_rows};
ghost use Rattle.walk.specs.Groups.{item_rows};
ghost use Rattle.walk.specs.Answers.{Says, start_paper, start_walk};

use batch::{BATCH_NUMBERS, Fill, flush};
use ready::Outward;
use rules::{Direction, Grid, Point, Refusal, Walk, Walked};
use tables::{Lent, register};
use take::ROW_NUMBERS;

// A walk's state.
fn walk_at(q: Point, waiting: usize, damaged: bool) -> Walk
    ensures { result ≡ walk_at q waiting damaged }
{
    Walk {
        x: q.x,
        y: q.y,
        waiting,
        damaged,
    }
}

// A refused start's state.
fn refused_walk() -> Walk
    ensures { result ≡ refused_walk }
{
    Walk {
        x: 0,
        y: 0,
        waiting: 0,
        damaged: true,
    }
}

// A refusal that leaves the state so.
fn refused(why: Refusal, walk: Walk) -> Walked
    ensures { Says result (paper why) walk }
{
    Walked {
        answer: Err(why),
        walk,
    }
}

// So many rows are given, and the state is so.
fn done(rows: u64, walk: Walk) -> Walked
    ensures { Says result (paper_answer (Ok rows)) walk }
{
    Walked {
        answer: Ok(rows),
        walk,
    }
}

// ---- start

impl Outward<'_> {
    // The tile that the point lies in.
    fn tile_of(&self) -> u32
        ensures { (result ≡ tile_of self.now.g self.now.q) × (result < tile_count self.now.g) }
    {
        grid::tile_no(
            self.g,
            grid::column(self.g, self.q.y),
            grid::column(self.g, self.q.x),
        )
    }

    // The numbers of room that a start needs.
    #[tactic(auto, unfolding(rules::specs::Walk::start_room))]
    fn start_room(&self) -> u64
        ensures { result ≡ start_room self.now.g self.now.reg.now }
    {
        3 * (register::count(self.reg) as u64 + grid::tile_count(self.g) as u64 + 4)
    }

    // The level 1 groups are brought.
    fn add_groups(&self, front: &mut [u64], batch: &mut [u64], mut f: Fill) -> Option<Fill>
        requires safe { Safe front.old batch.old f }
        ensures { Filled front.new batch.new result (add_all (stands front.old batch.old f) (item_rows self.now.g self.now.q (each (group_if self.now.g self.now.q 1) directions))) }
    {
        for d in [
            Direction::Up,
            Direction::Right,
            Direction::Down,
            Direction::Left,
        ] {
            f = self.add_group(front, batch, f, d, 1)?;
        }
        Some(f)
    }

    // The footprints of the point's tile and the level 1 groups are brought.
    fn add_start(&self, tile: u32, front: &mut [u64], batch: &mut [u64], f: Fill) -> Option<Fill>
        requires safe { Safe front.old batch.old f }
        requires tile_there { tile < tile_count self.now.g }
        requires no_damage { good_runs self.now.g (lent_by self.now) (allowed_runs self.now.g self.now.q tile) ≡ true }
        ensures { Filled front.new batch.new result (add_all (add_all (stands front.old batch.old f) (run_rows self.now.g (lent_by self.now) self.now.q (allowed_runs self.now.g self.now.q tile))) (item_rows self.now.g self.now.q (each (group_if self.now.g self.now.q 1) directions))) }
    {
        let f = self.add_tile(front, batch, f, tile)?;
        self.add_groups(front, batch, f)
    }

    // Lays the start's rows into the front, 0 past them, and returns how many they are.
    fn lay_start(&self, tile: u32, front: &mut [u64]) -> usize
        requires own_tile { (tile ≡ tile_of self.now.g self.now.q) × (tile < tile_count self.now.g) }
        requires no_damage { good_runs self.now.g (lent_by self.now) (allowed_runs self.now.g self.now.q tile) ≡ true }
        requires room { length (each (run_at (lent_by self.now)) (allowed_runs self.now.g self.now.q tile)) + 4 ≤ length (rows front.old) }
        ensures { (front.new ≡ laid (length front.old) (start_front self.now.g (lent_by self.now) self.now.q)) × (result ≡ length (start_front self.now.g (lent_by self.now) self.now.q)) }
    {
        let mut batch = [0; BATCH_NUMBERS];
        let fresh = Fill {
            head: front::whole(front),
            count: 0,
        };
        let f = self.add_start(tile, front, &mut batch, fresh).unwrap();
        let head = flush(front, &batch, f);
        front::settle(front, head)
    }

    // Lays a start's rows, and returns how many they are, or why it is refused: 7 or 6, in this order, with the front as it was.
    fn begin(&self, front: &mut [u64]) -> Result<usize, Refusal>
        ensures { (start_paper result, start_walk self.now.q result, front.new) ≡ begun self.now.g (lent_by self.now) self.now.q front.old }
    {
        let tile = self.tile_of();
        let count = self.judge_tile(tile).ok_or(Refusal::Damage)?;
        if register::count(self.reg) < count {
            return Err(Refusal::Damage);
        }
        let need = self.start_room();
        if (front.len() as u64) < need {
            return Err(Refusal::Room(need));
        }
        Ok(self.lay_start(tile, front))
    }
}

// Lays a start's rows into the front, and returns how many they are, or why it is refused, with the front as it was.
#[tactic(auto, using(crate::proofs::Starting::start_refused, crate::proofs::Opening::start_unread))]
fn begin(g: Grid, t: &Lent<'_, u32>, q: Point, front: &mut [u64]) -> Result<usize, Refusal>
    ensures { (start_paper result, start_walk q result, front.new) ≡ begun g t.now q front.old }
{
    Outward::new(g, t, q)?.begin(front)
}

// Begins a walk from q: the front holds the footprints of the point's tile and the level 1 groups.
// Refusals 1, 2, 4, 7, 6, in this order, leave the front as it was and give point 0, 0, no rows and the mark set.
pub fn start(g: Grid, t: &Lent<'_, u32>, q: Point, front: &mut [u64]) -> Walked
    ensures { (paper_answer result.answer, result.walk, front.new) ≡ begun g t.now q front.old }
{
    match begin(g, t, q, front) {
        Ok(waiting) => done(0, walk_at(q, waiting, false)),
        Err(why) => refused(why, refused_walk()),
    }
}

// ---- ask

// An ask's damage: the mark, no rows, and 0 in the front and in the numbers asked for.
fn spoil_ask(front: &mut [u64], walk: Walk, j: usize, out: &mut [u64]) -> Walked
    requires { row_numbers * j ≤ length out.old }
    ensures { (paper_answer result.answer, result.walk, front.new, out.new) ≡ ask_outcome walk front.old j out.old spoiled }
{
    front.fill(0);
    out[..ROW_NUMBERS * j].fill(0);
    let q = Point {
        x: walk.x,
        y: walk.y,
    };
    refused(Refusal::Damage, walk_at(q, 0, true))
}

impl Outward<'_> {
    // Rows are taken from the waiting ones, which stand at the end of the front meanwhile, and moved back.
    fn ask_rows(&self, front: &mut [u64], walk: Walk, j: usize, out: &mut [u64]) -> Walked
        requires same_point { self.now.q ≡ walk_point walk }
        requires room { (walk.waiting ≤ length (rows front.old)) × (row_numbers * j ≤ length out.old) }
        ensures { (paper_answer result.answer, result.walk, front.new, out.new) ≡ ask_outcome walk front.old j out.old (finish self.now.g (lent_by self.now) self.now.q (whole_rows front.old) (machine (take walk.waiting (rows front.old)) [] j false)) }
    {
        let from = front::lift(front, walk.waiting);
        let Some(s) = self.run(front, from, j, out) else {
            return spoil_ask(front, walk, j, out);
        };
        let left = front::settle(front, s.head);
        done(s.given as u64, walk_at(self.q, left, false))
    }
}

// Gives the next j rows of a walk, two numbers each, and fewer only when nothing waits any more.
// Refusals 1, 2, 4 and 6 leave all as it was; 7 sets the mark and the count 0, and zeroes the front and the numbers asked for.
pub fn ask(
    g: Grid,
    t: &Lent<'_, u32>,
    front: &mut [u64],
    walk: Walk,
    j: u32,
    out: &mut [u64],
) -> Walked
    ensures { (paper_answer result.answer, result.walk, front.new, out.new) ≡ asks g t.now front.old walk j out.old }
{
    let q = Point {
        x: walk.x,
        y: walk.y,
    };
    let w = match Outward::new(g, t, q) {
        Ok(w) => w,
        Err(why) => return refused(why, walk),
    };
    let wanted = j as usize;
    let need = ROW_NUMBERS * wanted;
    if out.len() < need {
        return refused(Refusal::Room(need as u64), walk);
    }
    if walk.damaged || front::whole(front) < walk.waiting {
        return spoil_ask(front, walk, wanted, out);
    }
    w.ask_rows(front, walk, wanted, out)
}
