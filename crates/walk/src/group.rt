// A group: whether it exists, its square, its tiles as a line of tile numbers, and the next group of its direction.
ghost use Rattle.std.specs.Prelude.{◌≡◌, true, not, ◌||◌, [], map, ℕ, ◌+◌, ◌-◌, ◌*◌, ◌≤◌, ◌<◌, min, eqb};
ghost use Rattle.laws.specs.Lines.{line};
ghost use Rattle.rules.specs.Sizes.{tile_count};
ghost use Rattle.rules.specs.Span.{at, cover, gap};
ghost use Rattle.rules.specs.Lines.{row_line, column_line, group_line};
ghost use Rattle.rules.specs.Walk.{group_exists, group_gap, waiting_row, group_if, group_brings};
ghost use Rattle.rules.specs.declared.Item.TheVariants.{Group, Tile};
ghost use Rattle.walk.specs.Fill.{add_all, brought, stands, Safe, Filled};
ghost use Rattle.walk.specs.Groups.{Lies, item_rows};

use crate::batch::{Fill, add};
use crate::ready::Outward;
use rules::{Direction, Grid, Item, Row, Span, Three};

// Tiles whose numbers lie the same way apart: the first, how far apart, and how many.
#[derive(Clone, Copy)]
pub(crate) struct Tiles {
    pub(crate) start: u32,
    pub(crate) apart: u32,
    pub(crate) many: u32,
}

// The gap from a coordinate to a tile column, or row.
fn gap_to(g: Grid, c: u32, col: u32) -> u64
    requires { (1 ≤ g.side) × (g.side ≤ 16384) × (col < 64) × (c ≤ 1048576) }
    ensures { (result ≡ gap (at c) (cover g.side col)) × (result ≤ 1048576) }
{
    u64::from(grid::gap(Span { lo: c, hi: c }, grid::cover(g.side, col)))
}

// Row `row`, columns begin up to past.
fn row_tiles(g: Grid, row: u32, begin: u32, past: u32) -> Tiles
    requires { (g.n ≤ 64) × (row < g.n) × (begin < past) × (past ≤ g.n) }
    ensures { Lies (row_line g row begin past) result }
{
    Tiles {
        start: grid::tile_no(g, row, begin),
        apart: 1,
        many: past - begin,
    }
}

// Column `col`, rows begin up to past.
fn column_tiles(g: Grid, col: u32, begin: u32, past: u32) -> Tiles
    requires { (g.n ≤ 64) × (col < g.n) × (begin < past) × (past ≤ g.n) }
    ensures { Lies (column_line g col begin past) result }
{
    Tiles {
        start: grid::tile_no(g, begin, col),
        apart: g.n,
        many: past - begin,
    }
}

impl Outward<'_> {
    // Whether the group of a direction and a level has its row or column on the grid.
    #[tactic(auto, unfolding(rules::specs::Walk::group_exists, rules::specs::Walk::exists))]
    pub(crate) fn group_exists(&self, d: Direction, level: u32) -> bool
        ensures { result ≡ group_exists self.now.g self.now.q d level }
    {
        let c = grid::column(self.g, self.q.x);
        let r = grid::column(self.g, self.q.y);
        match d {
            Direction::Up => u64::from(r) + u64::from(level) < u64::from(self.g.n),
            Direction::Right => u64::from(c) + u64::from(level) < u64::from(self.g.n),
            Direction::Down => level <= r,
            Direction::Left => level <= c,
        }
    }

    // The gap from the point to a group's row or column alone.
    fn group_gap(&self, d: Direction, level: u32) -> u64
        requires { group_exists self.now.g self.now.q d level ≡ true }
        ensures { (result ≡ group_gap self.now.g self.now.q d level) × (result ≤ 1048576) }
    {
        let c = grid::column(self.g, self.q.x);
        let r = grid::column(self.g, self.q.y);
        match d {
            Direction::Up => gap_to(self.g, self.q.y, r + level),
            Direction::Right => gap_to(self.g, self.q.x, c + level),
            Direction::Down => gap_to(self.g, self.q.y, r - level),
            Direction::Left => gap_to(self.g, self.q.x, c - level),
        }
    }

    // A group as a waiting row.
    fn group_row(&self, d: Direction, level: u32) -> Three
        requires { group_exists self.now.g self.now.q d level ≡ true }
        ensures { result ≡ waiting_row self.now.g [] self.now.q (Group d level) }
    {
        let gap = self.group_gap(d, level);
        Three::from(Row {
            square: gap * gap,
            item: Item::Group(d, level),
        })
    }

    // A tile as a waiting row.
    fn tile_row(&self, tile: u32) -> Three
        requires { tile < tile_count self.now.g }
        ensures { result ≡ waiting_row self.now.g [] self.now.q (Tile tile) }
    {
        let dx = gap_to(self.g, self.q.x, tile % self.g.n);
        let dy = gap_to(self.g, self.q.y, tile / self.g.n);
        Three::from(Row {
            square: dx * dx + dy * dy,
            item: Item::Tile(tile),
        })
    }

    // The tiles of a group, tiles off the grid left out.
    fn group_tiles(&self, d: Direction, level: u32) -> Tiles
        requires { (1 ≤ level) × (group_exists self.now.g self.now.q d level ≡ true) }
        ensures { Lies (group_line self.now.g self.now.q d level) result }
    {
        let c = grid::column(self.g, self.q.x);
        let r = grid::column(self.g, self.q.y);
        match d {
            Direction::Up => row_tiles(
                self.g,
                r + level,
                c.saturating_sub(level),
                (c + level).min(self.g.n),
            ),
            Direction::Right => column_tiles(
                self.g,
                c + level,
                (r + 1).saturating_sub(level),
                (r + level + 1).min(self.g.n),
            ),
            Direction::Down => row_tiles(
                self.g,
                r - level,
                (c + 1).saturating_sub(level),
                (c + level + 1).min(self.g.n),
            ),
            Direction::Left => column_tiles(
                self.g,
                c - level,
                r.saturating_sub(level),
                (r + level).min(self.g.n),
            ),
        }
    }

    // Tiles on the grid are brought.
    fn add_tiles(
        &self,
        front: &mut [u64],
        batch: &mut [u64],
        mut f: Fill,
        tiles: Tiles,
    ) -> Option<Fill>
        requires safe { Safe front.old batch.old f }
        requires few { (tiles.apart ≤ 64) × (tiles.many ≤ 64) }
        requires on_grid { (j : ℕ) → j < tiles.many → tiles.start + j * tiles.apart < tile_count self.now.g }
        ensures { Filled front.new batch.new result (add_all (stands front.old batch.old f) (item_rows self.now.g self.now.q (map Tile (line tiles.start tiles.apart tiles.many)))) }
    {
        for i in 0..tiles.many {
            f = add(
                front,
                batch,
                f,
                self.tile_row(tiles.start + i * tiles.apart),
            )?;
        }
        Some(f)
    }

    // A group is brought, if it exists.
    pub(crate) fn add_group(
        &self,
        front: &mut [u64],
        batch: &mut [u64],
        f: Fill,
        d: Direction,
        level: u32,
    ) -> Option<Fill>
        requires safe { Safe front.old batch.old f }
        ensures { Filled front.new batch.new result (add_all (stands front.old batch.old f) (item_rows self.now.g self.now.q (group_if self.now.g self.now.q level d))) }
    {
        if !self.group_exists(d, level) {
            return Some(f);
        }
        add(front, batch, f, self.group_row(d, level))
    }

    // A group brings its tiles and the next group of its direction, if that exists; no such group is damage.
    pub(crate) fn open_group(
        &self,
        front: &mut [u64],
        batch: &mut [u64],
        f: Fill,
        d: Direction,
        level: u32,
    ) -> Option<Fill>
        requires safe { Safe front.old batch.old f }
        ensures { Filled front.new batch.new result (brought (stands front.old batch.old f) (eqb level 0 || not (group_exists self.now.g self.now.q d level)) (item_rows self.now.g self.now.q (group_brings self.now.g self.now.q d level))) }
    {
        if level == 0 || !self.group_exists(d, level) {
            return None;
        }
        let f = self.add_tiles(front, batch, f, self.group_tiles(d, level))?;
        self.add_group(front, batch, f, d, level + 1)
    }
}
