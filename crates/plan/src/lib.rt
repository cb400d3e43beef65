// The plan viewer's door: build, check and search from C, over tables in little-endian bytes, read and written where they are lent.
#![tactic(auto)]

ghost use Rattle.std.specs.Prelude.{◌≡◌, [], ◌∷◌};
ghost use Rattle.rules.specs.Refusals.{paper_answer, paper_checked, as_verdict};
ghost use Rattle.rules.specs.Bytes.{bytes_verdict, builds_bytes, checks_bytes, searches_bytes};
ghost use Rattle.outward.specs.Outward.{told as told_is, outward, outward₁, outward₂};

use outward::Told;
use rules::{Grid, Point, Refusal};
use tables::Lent;

// ---- build and check

// What is refused of the three tables before the numbers that they hold are looked at: 1, then 2 where a byte length is off four.
#[tactic(auto, unfolding(rules::specs::Bytes::bytes_verdict))]
fn judge(g: Grid, reg: &[u8], starts: &[u8], entries: &[u8]) -> Result<(), Refusal>
    ensures { as_verdict result ≡ bytes_verdict g (reg.now ∷ starts.now ∷ entries.now ∷ []) }
{
    if grid::bad_sizes(g) {
        return Err(Refusal::Sizes);
    }
    if numbers::off_four(reg) || numbers::off_four(starts) || numbers::off_four(entries) {
        return Err(Refusal::Lengths);
    }
    Ok(())
}

// Builds in bytes: no byte changes but those of the starts and of the entries up to the count.
fn build(g: Grid, reg: &[u8], starts: &mut [u8], entries: &mut [u8]) -> Result<u64, Refusal>
    ensures { (paper_answer result, starts.new, entries.new) ≡ builds_bytes g reg.now starts.old entries.old }
{
    judge(g, reg, starts, entries)?;
    index::build(g, reg, starts, entries)
}

// Checks in bytes.
fn check(g: Grid, reg: &[u8], starts: &[u8], entries: &[u8]) -> Result<bool, Refusal>
    ensures { paper_checked result ≡ checks_bytes g reg.now starts.now entries.now }
{
    judge(g, reg, starts, entries)?;
    index::check(
        g,
        &Lent {
            reg,
            starts,
            entries,
        },
    )
}

// Builds starts and entries; value: the entries, or what the refusal names.
#[unsafe(no_mangle)]
pub extern "C" fn luv_build(
    n: u32,
    side: u32,
    reg: &[u8],
    starts: &mut [u8],
    entries: &mut [u8],
    value: &mut u64,
) -> u32
    ensures { (told_is result value.new, starts.new, entries.new) ≡ outward₂ (builds_bytes (record { n = n; side = side }) reg.now starts.old entries.old) }
{
    let g = Grid { n, side };
    Told::from(build(g, reg, starts, entries)).tell(value)
}

// Whether starts and entries are what the build leaves; value: 1 for yes and 0 for no, or what the refusal names.
#[unsafe(no_mangle)]
pub extern "C" fn luv_check(
    n: u32,
    side: u32,
    reg: &[u8],
    starts: &[u8],
    entries: &[u8],
    value: &mut u64,
) -> u32
    ensures { told_is result value.new ≡ outward (checks_bytes (record { n = n; side = side }) reg.now starts.now entries.now) }
{
    let g = Grid { n, side };
    Told::from(check(g, reg, starts, entries)).tell(value)
}

// ---- search

// Writes the footprints within r of a point, in the order of the radius list, and gives how many they are; room is counted in numbers. A
// refused search writes nothing, and output past the hits stays as it was. A byte length off four is refusal 2, behind 1.
fn search(
    g: Grid,
    reg: &[u8],
    starts: &[u8],
    entries: &[u8],
    q: Point,
    r: u32,
    out: &mut [u8],
) -> Result<u64, Refusal>
    ensures { (paper_answer result, out.new) ≡ searches_bytes g reg.now starts.now entries.now q r out.old }
{
    judge(g, reg, starts, entries)?;
    if numbers::off_four(out) {
        return Err(Refusal::Lengths);
    }
    let t = Lent {
        reg,
        starts,
        entries,
    };
    search::search(g, &t, q, r, out)
}

// Searches around a point; value: the hits, or what the refusal names.
#[unsafe(no_mangle)]
pub extern "C" fn luv_search(
    n: u32,
    side: u32,
    reg: &[u8],
    starts: &[u8],
    entries: &[u8],
    x: u32,
    y: u32,
    r: u32,
    out: &mut [u8],
    value: &mut u64,
) -> u32
    ensures { (told_is result value.new, out.new) ≡ outward₁ (searches_bytes (record { n = n; side = side }) reg.now starts.now entries.now (record { x = x; y = y }) r out.old) }
{
    let g = Grid { n, side };
    let q = Point { x, y };
    Told::from(search(g, reg, starts, entries, q, r, out)).tell(value)
}
