// What is judged of a list as a whole: the sizes and the lengths before all probes, and the room behind them.

ghost use Rattle.std.specs.Prelude.{◌≡◌, ◌≤◌, length};
ghost use Rattle.std.specs.Result.{OnOk};
ghost use Rattle.rules.specs.Refusals.{unless};
ghost use Rattle.rules.specs.Probes.{most_probes, probes_verdict, lists_room};

use rules::{Grid, ListRefusal, Refusal};
use tables::{Lent, register};

// Refusals 1 and 2, also of a list of so many probes.
#[tactic(auto, unfolding(rules::specs::Probes::probes_verdict, rules::specs::Tables::bad_lengths))]
pub(crate) fn judge(g: Grid, t: &Lent<'_, u32>, count: usize) -> Result<(), ListRefusal>
    ensures judged { result ≡ unless (probes_verdict g t.now count) (λ why. Err (ListRefusal.At why 0)) (Ok tt) }
    ensures few { OnOk result (count ≤ most_probes) }
{
    if grid::bad_sizes(g) {
        return Err(ListRefusal::At(Refusal::Sizes, 0));
    }
    if register::bad_lengths(g, t.reg, t.starts) || rules::MOST_PROBES < count {
        return Err(ListRefusal::At(Refusal::Lengths, 0));
    }
    Ok(())
}

// Refusal 6: room for so many numbers in the output, then for so many ends.
#[tactic(auto, unfolding(rules::specs::Probes::lists_room))]
pub(crate) fn room(total: u64, count: usize, out: &[u32], ends: &[u64]) -> Result<(), ListRefusal>
    ensures judged { result ≡ unless (lists_room total count out.now ends.now) (λ why. Err (ListRefusal.Whole why)) (Ok tt) }
    ensures fits { OnOk result ((total ≤ length out.now) × (count ≤ length ends.now)) }
{
    if (out.len() as u64) < total {
        return Err(ListRefusal::Whole(Refusal::Room(total)));
    }
    if ends.len() < count {
        return Err(ListRefusal::Whole(Refusal::Room(count as u64)));
    }
    Ok(())
}
