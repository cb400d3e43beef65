// The text register: judged, read and printed, on slices.
#![tactic(auto)]

mod decimals;
mod judging;
mod lines;
mod print;

pub use decimals::{Decimal, number_at};
pub use judging::{MOST_BYTES, MOST_FOOTPRINTS, MOST_NUMBERS, MOST_TILES, Sheet, judge, within};
pub use print::Page;
