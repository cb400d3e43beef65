// The lent tables read and judged: the register and its footprints, the starts, and a run as a part of the entries.
#![tactic(auto)]

pub mod register; // register.rt: the register's footprints, and the lengths

ghost use Rattle.std.specs.Prelude.{◌≡◌, not, ◌||◌, ◌+◌, ◌/◌, ◌%◌, ltb, eqb};
ghost use Rattle.rules.specs.Sizes.{most_footprints};
ghost use Rattle.rules.specs.Register.{numbers, bad_span, bad_entry};
ghost use Rattle.rules.specs.Tables.{runs, bad_starts, bad_ends};
ghost use Rattle.rules.specs.Refusals.{paper_ends};
ghost use Rattle.rules.specs.Build.{bad_run, run_ends, hands_back};
ghost use Rattle.tables.specs.Entries.{good_entries};

use numbers::Form;
use rules::{Grid, Part, Rect, Refusal, Span};
use std::marker::Model;

// The register, the starts and the entries, as they are lent.
#[derive(Drop)]
pub struct Lent<'a, F: Form> {
    pub reg: &'a [F],
    pub starts: &'a [F],
    pub entries: &'a [F],
}

impl<'a, F: Form> Model for Lent<'a, F> {
    ghost use Rattle.rules.specs.Tables.{Tables, tables};

    ghost Value = { Tables };

    ghost view = { λ t. tables (F.numbers t.reg.now) (F.numbers t.starts.now) (F.numbers t.entries.now) };
}

// Whether a register of so many numbers is no multiple of four long, or has too many footprints.
pub fn wrong_register(len: usize) -> bool
    ensures { result ≡ not (eqb (len % numbers) 0) || ltb most_footprints (len / numbers) }
{
    len % 4 != 0 || rules::MOST_FOOTPRINTS < len / 4
}

// Whether so many starts are not exactly 16×n²+1.
pub fn wrong_starts(g: Grid, len: usize) -> bool
    ensures { result ≡ not (eqb len (runs g + 1)) }
{
    len == 0 || (len - 1) % 16 != 0 || (len - 1) / 16 != grid::tile_count(g)
}

// Whether there are not exactly 16×n²+1 starts.
#[tactic(auto, unfolding(rules::specs::Tables::bad_starts))]
pub fn bad_starts<F: Form>(g: Grid, starts: &[F]) -> bool
    ensures { result ≡ bad_starts g (F.numbers starts.now) }
{
    wrong_starts(g, F::count(starts))
}

// Whether lo > hi, or hi is off the grid.
#[tactic(auto, unfolding(rules::specs::Register::bad_span))]
pub fn bad_span(g: Grid, s: Span) -> bool
    ensures { result ≡ bad_span g s }
{
    s.hi < s.lo || grid::off_grid(g, s.hi)
}

// Whether a rectangle has a bad span.
pub fn bad_rect(g: Grid, a: Rect) -> bool
    ensures { result ≡ bad_span g a.x || bad_span g a.y }
{
    bad_span(g, a.x) || bad_span(g, a.y)
}

// Whether no entry may name footprint i.
#[tactic(auto, unfolding(rules::specs::Register::bad_entry))]
pub fn bad_entry<F: Form>(g: Grid, reg: &[F], i: u32) -> bool
    ensures { result ≡ bad_entry g (F.numbers reg.now) i }
{
    register::count(reg) <= i as usize || register::bad_footprint(g, reg, i as usize)
}

// Whether an entry of a run may not be named.
pub fn bad_entries(g: Grid, reg: &[u32], run: &[u32]) -> bool
    ensures { result ≡ not (good_entries g reg.now run.now) }
{
    run.iter().any(|i| bad_entry(g, reg, *i))
}

// Whether a run's two starts are damaged, among so many entries.
#[tactic(auto, unfolding(rules::specs::Tables::bad_ends))]
pub fn bad_ends(entries: usize, from: usize, to: usize) -> bool
    ensures { result ≡ bad_ends entries «from» to }
{
    to < from || entries < to || rules::MOST_ENTRIES < to
}

// Whether there is no such tile or class.
#[tactic(auto, unfolding(rules::specs::Build::bad_run))]
pub fn bad_run(g: Grid, tile: u32, class: u32) -> bool
    ensures { result ≡ bad_run g tile class }
{
    grid::tile_count(g) <= tile as usize || 16 <= class
}

// Where the run of a class in a tile begins and ends among so many entries, or why it is refused: 1, 2, 4 or 7.
#[tactic(auto, unfolding(rules::specs::Build::run_ends, rules::specs::Build::run_verdict, rules::specs::Refusals::paper_ends))]
pub fn run_ends(
    g: Grid,
    starts: &[u32],
    entries: usize,
    tile: u32,
    class: u32,
) -> Result<Part, Refusal>
    ensures { paper_ends result ≡ run_ends g starts.now entries tile class }
{
    if grid::bad_sizes(g) {
        return Err(Refusal::Sizes);
    }
    if bad_starts(g, starts) {
        return Err(Refusal::Lengths);
    }
    if bad_run(g, tile, class) {
        return Err(Refusal::Place);
    }
    let k = 16 * tile as usize + class as usize;
    let begin = starts[k] as usize;
    let past = starts[k + 1] as usize;
    if bad_ends(entries, begin, past) {
        return Err(Refusal::Damage);
    }
    Ok(Part { begin, past })
}

// The run of a class in a tile, as that part of the lent entries; for every refusal the empty part at their beginning.
pub fn run<'a>(g: Grid, starts: &[u32], entries: &'a [u32], tile: u32, class: u32) -> &'a [u32]
    ensures { (result.ref_ptr, result.now) ≡ hands_back g starts.now entries.now tile class entries.entry.ref_ptr }
{
    match run_ends(g, starts, entries.len(), tile, class) {
        Ok(part) => &entries[part.begin..part.past],
        Err(_) => &entries[..0],
    }
}
