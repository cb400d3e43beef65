// The probes of a list searched one after the other, each list behind the others.

ghost use Rattle.std.specs.Prelude.{◌≡◌, ◌≤◌, ◌<◌, length};
ghost use Rattle.rules.specs.Probes.{most_probes};
ghost use Rattle.probes.specs.Listing.{counted, list_at, list_all};

use rules::{Grid, ListRefusal, Point, Probe, Refusal};
use tables::Lent;

// The answer of search i: the numbers that it wrote, or would write had it found room; or its refusal.
#[tactic(auto, unfolding(crate::specs::Listing::counted, crate::specs::Listing::counted_refused))]
fn counted(answer: Result<u64, Refusal>, i: usize) -> Result<u64, ListRefusal>
    requires { i < most_probes }
    ensures { result ≡ counted answer i }
{
    match answer {
        Ok(hits) => Ok(rules::HIT_NUMBERS as u64 * hits),
        Err(Refusal::Room(need)) => Ok(need),
        Err(why) => Err(ListRefusal::At(why, i as u32)),
    }
}

// Probe i searched, behind so many numbers: its list, where it finds room in what is lent, and the numbers of the list.
fn list_at(
    g: Grid,
    t: &Lent<'_, u32>,
    probe: &Probe,
    i: usize,
    total: u64,
    lent: &mut [u32],
) -> Result<u64, ListRefusal>
    requires { i < most_probes }
    ensures { (result, lent.new) ≡ list_at g t.now probe.now i total lent.old }
{
    let at = lent.len().min(total as usize);
    let q = Point {
        x: probe.x,
        y: probe.y,
    };
    let answer = search::search(g, t, q, probe.r, &mut lent[at..]);
    counted(answer, i)
}

// All probes, one after the other: their lists one behind the other, while they find room in what is lent, and each list's end.
pub(crate) fn list_all(
    g: Grid,
    t: &Lent<'_, u32>,
    probes: &[Probe],
    lent: &mut [u32],
    ends: &mut [u64],
) -> Result<u64, ListRefusal>
    requires { length probes.now ≤ most_probes }
    ensures { (result, lent.new, ends.new) ≡ list_all g t.now probes.now lent.old ends.old }
{
    let mut total = 0;
    for (i, probe) in probes.iter().enumerate() {
        total += list_at(g, t, probe, i, total, lent)?;
        if i < ends.len() {
            ends[i] = total;
        }
    }
    Ok(total)
}
