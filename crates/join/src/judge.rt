// Damage: every run of a side is read, its ends and its entries, before anything is joined.
ghost use Rattle.std.specs.Prelude.{◌≡◌, false, not, ◌+◌, ◌<◌, length};
ghost use Rattle.laws.specs.Lists.{up_to};
ghost use Rattle.rules.specs.Tables.{runs, bad_lengths, bad_starts, good_run, good_runs};
ghost use Rattle.rules.specs.Join.{join_verdict};
ghost use Rattle.rules.specs.Refusals.{as_verdict};

use rules::{Grid, Refusal};
use tables::{Lent, register};

// Whether run k shows damage.
fn bad_run(g: Grid, t: &Lent<'_, u32>, k: usize) -> bool
    requires { k + 1 < length t.now.starts }
    ensures { result ≡ not (good_run g t.now k) }
{
    let starts = t.starts;
    let begin = starts[k] as usize;
    let past = starts[k + 1] as usize;
    tables::bad_ends(t.entries.len(), begin, past)
        || tables::bad_entries(g, t.reg, &t.entries[begin..past])
}

// Whether a run of a side shows damage.
fn bad_side(g: Grid, t: &Lent<'_, u32>) -> bool
    requires { bad_starts g t.now.starts ≡ false }
    ensures { result ≡ not (good_runs g t.now (up_to (runs g))) }
{
    (0..t.starts.len() - 1).any(|k| bad_run(g, t, k))
}

// Whether a side's register or starts have a wrong length.
#[tactic(auto, unfolding(rules::specs::Tables::bad_lengths))]
fn bad_lengths(g: Grid, t: &Lent<'_, u32>) -> bool
    ensures { result ≡ bad_lengths g t.now }
{
    register::bad_lengths(g, t.reg, t.starts)
}

// Refusals 1, 2, 5 and 7, in this order.
#[tactic(auto, unfolding(rules::specs::Join::join_verdict), using(crate::proofs::Verdicts::starts_good))]
pub(crate) fn judge(
    g: Grid,
    left: &Lent<'_, u32>,
    right: &Lent<'_, u32>,
    r: u32,
) -> Result<(), Refusal>
    ensures { as_verdict result ≡ join_verdict g left.now right.now r }
{
    if grid::bad_sizes(g) {
        return Err(Refusal::Sizes);
    }
    if bad_lengths(g, left) || bad_lengths(g, right) {
        return Err(Refusal::Lengths);
    }
    if g.side < r {
        return Err(Refusal::Radius);
    }
    if bad_side(g, left) || bad_side(g, right) {
        return Err(Refusal::Damage);
    }
    Ok(())
}
