// A text judged whole, line by line, and its sizes by the program's own limits.
ghost use Rattle.std.specs.Prelude.{◌≡◌};
ghost use Rattle.rules.specs.Text.{sheet_verdict};
ghost use Rattle.rules.specs.Refusals.{as_verdict};
ghost use Rattle.sheet.specs.Sheets.{judges};

use crate::lines::{Key, line_at};
use rules::{Grid, MOST_SIDE, Refusal};

// The most bytes of a text. A line has 4 bytes or more, so there are a quarter as many lines and numbers at most.
pub const MOST_BYTES: usize = 65536;

pub const MOST_NUMBERS: usize = 16384;

// The most tiles in a row, and the most footprints.
pub const MOST_TILES: u32 = 16;

pub const MOST_FOOTPRINTS: u32 = 512;

// What a good text says: how many numbers, and how many footprints they have.
#[derive(Clone, Copy, PartialEq, Eq)]
pub struct Sheet {
    pub numbers: usize,
    pub footprints: u32,
}

// Judges a text and reads its numbers: n, side, the register and the questions, one behind the other. Of a bad text the numbers
// before the first bad or missing line are read. Numbers past those that are read stay as they were. A line has 4 bytes or
// more, so there are 16,384 at most; fewer lent are refused.
pub fn judge(text: &[u8], numbers: &mut [u32]) -> Result<Sheet, Refusal>
    ensures { (result, numbers.new) ≡ judges text.now numbers.old }
{
    if numbers.len() < MOST_NUMBERS {
        return Err(Refusal::Room(MOST_NUMBERS as u64));
    }
    if MOST_BYTES < text.len() {
        return Err(Refusal::Text(0));
    }
    let mut last = Key::Start;
    let mut at = 0;
    let mut sheet = Sheet {
        numbers: 0,
        footprints: 0,
    };
    while at < text.len() {
        let Some(line) = line_at(text, at, last) else {
            return Err(Refusal::Text(sheet.numbers as u32 + 1));
        };
        numbers[sheet.numbers] = line.number;
        sheet.numbers += 1;
        sheet.footprints += line.key.ends_footprint();
        last = line.key;
        at = line.behind;
    }
    if last.may_end() {
        Ok(sheet)
    } else {
        Err(Refusal::Text(sheet.numbers as u32 + 1))
    }
}

// Whether a sheet keeps the program's limits: n 1..16, side 1..16,384, 512 footprints at most.
#[tactic(auto, using(std::proofs::lemmas::Bool::Decides::nat_tests), unfolding(rules::specs::Text::sheet_verdict, rules::specs::Sizes::bad_sizes))]
pub fn within(g: Grid, footprints: u32) -> Result<(), Refusal>
    ensures { as_verdict result ≡ sheet_verdict g footprints }
{
    if g.n < 1 || MOST_TILES < g.n || g.side < 1 || MOST_SIDE < g.side {
        return Err(Refusal::Sizes);
    }
    if MOST_FOOTPRINTS < footprints {
        return Err(Refusal::Lengths);
    }
    Ok(())
}
