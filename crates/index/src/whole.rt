// A build and a check as a whole: refused as judged, or done.

ghost use Rattle.std.specs.Prelude.{◌≡◌};
ghost use Rattle.rules.specs.Refusals.{paper_answer, paper_checked};
ghost use Rattle.rules.specs.Build.{builds, checks};

use crate::judged::Judged;
use numbers::Form;
use rules::{Grid, Refusal};
use tables::Lent;

// Builds the index of a register: leaves the starts, and the entries up to the count that it answers.
pub fn build<F: Form>(
    g: Grid,
    reg: &[F],
    starts: &mut [F],
    entries: &mut [F],
) -> Result<u64, Refusal>
    ensures { (paper_answer result, F.numbers starts.new, F.numbers entries.new) ≡ builds g (F.numbers reg.now) (F.numbers starts.old) (F.numbers entries.old) }
{
    let judged = Judged::of(g, reg, starts)?;
    let need = judged.total();
    if F::count(entries) < need {
        return Err(Refusal::Room(need as u64));
    }
    judged.fill(starts, entries);
    Ok(need as u64)
}

// Whether the starts and the counted entries are what the build leaves; entries past the count are not looked at.
pub fn check<F: Form>(g: Grid, t: &Lent<'_, F>) -> Result<bool, Refusal>
    ensures { paper_checked result ≡ checks g t.now.reg t.now.starts t.now.entries }
{
    let judged = Judged::of(g, t.reg, t.starts)?;
    Ok(judged.is_right(t.starts, t.entries))
}
