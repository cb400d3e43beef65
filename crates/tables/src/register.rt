// The register and the starts read and judged: the only module that knows where a footprint's numbers stand.

ghost use Rattle.std.specs.Prelude.{◌≡◌, true, [], ◌<◌};
ghost use Rattle.rules.specs.Register.{count as count_is, rectangle, bad_footprint, bad_footprints};
ghost use Rattle.rules.specs.Tables.{tables, bad_lengths};
ghost use Rattle.tables.specs.First.{first_of, Sought};

use numbers::Form;
use rules::{Grid, Rect, Span};

// How many footprints a register has.
#[tactic(auto, unfolding(rules::specs::Register::count))]
pub fn count<F: Form>(reg: &[F]) -> usize
    ensures { result ≡ count_is (F.numbers reg.now) }
{
    F::count(reg) / 4
}

// Whether the register or the starts have a wrong length.
#[tactic(auto, unfolding(rules::specs::Tables::bad_lengths, rules::specs::Tables::bad_starts, rules::specs::Register::bad_register, rules::specs::Register::count))]
pub fn bad_lengths<F: Form>(g: Grid, reg: &[F], starts: &[F]) -> bool
    ensures { result ≡ bad_lengths g (tables (F.numbers reg.now) (F.numbers starts.now) []) }
{
    crate::wrong_register(F::count(reg)) || crate::wrong_starts(g, F::count(starts))
}

// The rectangle of footprint i.
pub fn footprint<F: Form>(g: Grid, reg: &[F], i: usize) -> Rect
    requires { i < count_is (F.numbers reg.now) }
    ensures { result ≡ rectangle g (F.numbers reg.now) i }
{
    Rect {
        x: Span {
            lo: F::get(reg, 4 * i),
            hi: F::get(reg, 4 * i + 2),
        },
        y: Span {
            lo: F::get(reg, 4 * i + 1),
            hi: F::get(reg, 4 * i + 3),
        },
    }
}

// Whether footprint i meets refusal 3.
pub fn bad_footprint<F: Form>(g: Grid, reg: &[F], i: usize) -> bool
    requires { i < count_is (F.numbers reg.now) }
    ensures { result ≡ bad_footprint g (F.numbers reg.now) i }
{
    crate::bad_rect(g, footprint(g, reg, i))
}

// How many footprints stand ahead of the first that meets refusal 3: all of them, where none does.
fn ahead_of_bad<F: Form>(g: Grid, reg: &[F]) -> usize
    ensures sought { Sought (bad_footprint g (F.numbers reg.now)) (count_is (F.numbers reg.now)) result }
    ensures bad { result < count_is (F.numbers reg.now) → bad_footprint g (F.numbers reg.now) result ≡ true }
{
    let all = count(reg);
    for i in 0..all {
        if bad_footprint(g, reg, i) {
            return i;
        }
    }
    all
}

// The lowest footprint that meets refusal 3, if one does. It is told apart behind the loop, so that the loop does nothing but look.
pub fn first_bad<F: Form>(g: Grid, reg: &[F]) -> Option<usize>
    ensures { result ≡ first_of (bad_footprints g (F.numbers reg.now)) }
{
    let ahead = ahead_of_bad(g, reg);
    if ahead < count(reg) {
        Some(ahead)
    } else {
        None
    }
}
