// The radius search: all that would be visited is judged and counted first, then written.
// What it costs: a tile of the square's box, its square; a tile that is visited, two divisions and its sixteen classes, with two starts for
// each that is allowed; an entry, one reading of its footprint's four numbers, for damage and distance. Neighbouring allowed classes are
// read as one part of the entries. Entries are read a second time only where the hits do not fit the array that keeps the first.
#![tactic(auto)]

mod asked; // asked.rt: what a search asks, judged
mod scan; // scan.rt: entries, one after the other
mod runs; // runs.rt: a tile, and the runs of its allowed classes
mod boxes; // boxes.rt: the rows and columns of the square's box
mod keeping; // keeping.rt: a search judged, then written

ghost use Rattle.std.specs.Prelude.{◌≡◌};
ghost use Rattle.rules.specs.Refusals.{paper_answer};
ghost use Rattle.rules.specs.Search.{searches};

use asked::Asked;
use numbers::Form;
use rules::{Grid, Point, Refusal};
use tables::Lent;

// How many hits are kept: few where r is at most a quarter of side, for all of an array is zeroed before a search, which is then short itself;
// many else, since what is not kept is read a second time.
const KEPT: usize = 64;

const KEPT_WIDE: usize = 2048;

// Writes the footprints within r of a point, in the order of the radius list, and gives how many they are, over tables in either form. A refused
// search writes nothing, and output past the hits stays as it was. Refusals are judged in the order 1, 2, 4, 5, 7, 6.
pub fn search<F: Form>(
    g: Grid,
    t: &Lent<'_, F>,
    q: Point,
    r: u32,
    out: &mut [F],
) -> Result<u64, Refusal>
    ensures { (paper_answer result, F.numbers out.new) ≡ searches g t.now q r (F.numbers out.old) }
{
    let asked = Asked::new(g, t, q, r)?;
    if r <= g.side / 4 {
        return asked.search_first::<KEPT>(out);
    }
    asked.search_first::<KEPT_WIDE>(out)
}
