// Where a join's loops go: S's tile at a position from R's, the position of any two tiles, and runs by their tile and class.
ghost use Rattle.std.specs.Prelude.{◌≡◌, true, false, ◌+◌, ◌*◌, ◌≤◌, ◌<◌, length};
ghost use Rattle.rules.specs.Sizes.{tile_count};
ghost use Rattle.rules.specs.Tables.{run_no, run_start, run_end, run_at, bad_ends};
ghost use Rattle.rules.specs.JoinSteps.{reaches as reaches_is, has_tile, tile_at};
ghost use Rattle.join.specs.Levels.{bare_tile, position_of};

use rules::Grid;
use tables::Lent;

// Whether the column or row at offset d−1 from c is one of n.
#[tactic(auto, unfolding(rules::specs::JoinSteps::reaches))]
fn reaches(n: u32, c: u32, d: u32) -> bool
    requires { (c ≤ 64) × (d ≤ 2) }
    ensures { result ≡ reaches_is n c d }
{
    1 <= c + d && c + d <= n
}

// Whether S has a tile at position p from R's tile t.
pub(crate) fn has_tile(g: Grid, t: u32, p: u32) -> bool
    requires { (1 ≤ g.n) × (g.n ≤ 64) × (t < tile_count g) × (p < 9) }
    ensures { result ≡ has_tile g t p }
{
    reaches(g.n, t / g.n, p / 3) && reaches(g.n, t % g.n, p % 3)
}

// The number of that tile.
pub(crate) fn tile_at(g: Grid, t: u32, p: u32) -> u32
    requires { (1 ≤ g.n) × (g.n ≤ 64) × (t < tile_count g) × (p < 9) × (has_tile g t p ≡ true) }
    ensures { result ≡ tile_at g t p }
{
    grid::tile_no(g, t / g.n + p / 3 - 1, t % g.n + p % 3 - 1)
}

// Where S's tile u lies from R's tile t: 3×(dy+1)+(dx+1), by the signs of the offsets, so for any two tiles.
pub(crate) fn position(g: Grid, t: u32, u: u32) -> u32
    requires { 1 ≤ g.n }
    ensures { (result ≡ position_of g t u) × (result < 9) }
{
    let y = grid::place(u / g.n, t / g.n);
    let x = grid::place(u % g.n, t % g.n);
    (3 * y + x) as u32
}

// The number of the run of a class in a tile.
#[tactic(auto, unfolding(rules::specs::Tables::run_no))]
pub(crate) fn run_no(t: u32, class: u32) -> usize
    requires { (t < 4096) × (class < 16) }
    ensures { result ≡ run_no t class }
{
    16 * t as usize + class as usize
}

// The numbers of run k of a side, which shows no damage.
pub(crate) fn run<'a>(side: &Lent<'a, u32>, k: usize) -> &'a [u32]
    requires { (k + 1 < length side.now.starts) × (bad_ends (length side.now.entries) (run_start side.now.starts k) (run_end side.now.starts k) ≡ false) }
    ensures { result.now ≡ run_at side.now k }
{
    &side.entries[side.starts[k] as usize..side.starts[k + 1] as usize]
}

// Whether tile t of a side that shows no damage has no entries: no start falls, so its first start and the next tile's tell it.
pub(crate) fn is_bare(side: &Lent<'_, u32>, t: u32) -> bool
    requires { (t < 4096) × (16 * t + 16 < length side.now.starts) }
    ensures { result ≡ bare_tile side.now.starts t }
{
    let starts = side.starts;
    let k = run_no(t, 0);
    starts[k] == starts[k + 16]
}
