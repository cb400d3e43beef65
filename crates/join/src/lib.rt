// The join of two registers by distance, over lent tables of any origin: judged whole, then counted, then written.
#![tactic(auto)]

mod judge; // judge.rt: the refusals, every run and entry of a side among them
mod keep; // keep.rt: pairs counted, and laid where they find room
mod boxes; // boxes.rt: boxes around the footprints of a run
mod places; // places.rt: S's tile around R's, and runs by their numbers
mod masks; // masks.rt: the marks of all class pairs, read once
mod sides; // sides.rt: two judged sides, and the loops over their tiles
mod tiles; // tiles.rt: two tiles, and the loops over their classes
mod runs; // runs.rt: two joined runs, and the loops over their numbers

ghost use Rattle.std.specs.Prelude.{◌≡◌, length};
ghost use Rattle.rules.specs.Refusals.{paper_answer, fit};
ghost use Rattle.rules.specs.Join.{join_pairs, pair_writes, joins};
ghost use Rattle.laws.specs.Lists.{each};

use rules::{Grid, Refusal};
use sides::Sides;
use tables::Lent;

// Results of up to this many numbers are kept while they are counted, so that nothing is read twice for them.
const SMALL: usize = 512;

// The same lent tables once more, to be held beside others.
fn same_tables<'a>(t: &Lent<'a, u32>) -> Lent<'a, u32>
    ensures { result ≡ t.now }
{
    Lent {
        reg: t.reg,
        starts: t.starts,
        entries: t.entries,
    }
}

// The pairs of two sides, where they find room.
fn write(sides: &Sides<'_>, out: &mut [u32]) -> Result<u64, Refusal>
    ensures { let s = sides.now in (paper_answer result, out.new) ≡ fit (length (join_pairs s.g s.left s.right s.r)) (each pair_writes (join_pairs s.g s.left s.right s.r)) out.old }
{
    let mut small = [0u32; SMALL];
    let found = sides.pairs(&mut small);
    let need = 2 * found;
    if (out.len() as u64) < need {
        return Err(Refusal::Room(need));
    }
    if need <= SMALL as u64 {
        let n = need as usize;
        out[..n].copy_from_slice(&small[..n]);
    } else {
        sides.pairs(out);
    }
    Ok(found)
}

// All pairs of R's and S's footprints within r, two numbers each, by R tile, S tile, R class, S class, R number, S number. Refused: 1, 2
// (either side), 5 (r over side), 7 (every run of both sides is read), 6; a refusal writes nothing, and output past the pairs is unchanged.
pub fn join(
    g: Grid,
    left: &Lent<'_, u32>,
    right: &Lent<'_, u32>,
    r: u32,
    out: &mut [u32],
) -> Result<u64, Refusal>
    ensures { (paper_answer result, out.new) ≡ joins g left.now right.now r out.old }
{
    judge::judge(g, left, right, r)?;
    let masks = masks::all_marks();
    write(
        &Sides {
            g,
            left: same_tables(left),
            right: same_tables(right),
            r,
            masks,
        },
        out,
    )
}
