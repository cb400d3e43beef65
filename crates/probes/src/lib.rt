// A list of searches: all radius lists one behind the other, each as the single search has it, and each list's end.
// Nothing may be written before every probe is judged, so there are two passes: the first lists into arrays of its own, and where these keep all,
// what they hold is copied; else the probes are searched a second time.
#![tactic(auto)]

mod judging; // judging.rt: what is judged of the list as a whole
mod listing; // listing.rt: a pass over the probes

ghost use Rattle.std.specs.Prelude.{◌≡◌};
ghost use Rattle.rules.specs.Refusals.{paper_listed};
ghost use Rattle.rules.specs.Probes.{searches_all};

use rules::{Grid, ListRefusal, Probe};
use tables::Lent;

// The numbers and the ends that the first pass keeps.
pub const KEPT: usize = 4096;

pub const KEPT_ENDS: usize = 512;

// Writes the radius lists of all probes one behind the other, and each list's end, its place in the output, and gives how many numbers were
// written. Refusals are judged in the order 1, 2, then the first probe that a search refuses with 4, 5 or 7, then 6 for the output and for the
// ends. A refused call writes nothing, and both tables stay as they were past what is written.
pub fn search_all(
    g: Grid,
    t: &Lent<'_, u32>,
    probes: &[Probe],
    out: &mut [u32],
    ends: &mut [u64],
) -> Result<u64, ListRefusal>
    ensures { (paper_listed result, out.new, ends.new) ≡ searches_all g t.now probes.now out.old ends.old }
{
    let count = probes.len();
    judging::judge(g, t, count)?;
    let mut kept = [0u32; KEPT];
    let mut kept_ends = [0u64; KEPT_ENDS];
    let total = listing::list_all(g, t, probes, &mut kept, &mut kept_ends)?;
    judging::room(total, count, out, ends)?;
    let numbers = total as usize;
    if numbers <= KEPT && count <= KEPT_ENDS {
        out[..numbers].copy_from_slice(&kept[..numbers]);
        ends[..count].copy_from_slice(&kept_ends[..count]);
        return Ok(total);
    }
    listing::list_all(g, t, probes, out, ends)
}
