// The types and the limits that the promises speak of. The rules about them are the definitions in specs/, their laws stand in proofs/.
#![tactic(auto)]

mod rows; // rows.rt: a waiting row as three numbers, and back

// n runs 1..64, side 1..16,384 cm.
pub const MOST_TILES: u32 = 64;

pub const MOST_SIDE: u32 = 16384;

// Footprints in a register, entries that a run may end past, and a search's radius in cm.
pub const MOST_FOOTPRINTS: usize = 65536;

pub const MOST_ENTRIES: usize = 268435456;

pub const MOST_RADIUS: u32 = 2097151;

// Probes in a list.
pub const MOST_PROBES: usize = 65536;

// The numbers that a hit writes.
pub const HIT_NUMBERS: usize = 1;

// n by n tiles, each side cm wide and high.
#[derive(Clone, Copy)]
pub struct Grid {
    pub n: u32,
    pub side: u32,
}

// The coordinates lo..hi of one dimension, both ends belonging to it.
#[derive(Clone, Copy)]
pub struct Span {
    pub lo: u32,
    pub hi: u32,
}

// A rectangle of coordinate points.
#[derive(Clone, Copy)]
pub struct Rect {
    pub x: Span,
    pub y: Span,
}

// A coordinate point.
#[derive(Clone, Copy)]
pub struct Point {
    pub x: u32,
    pub y: u32,
}

// A search of a list: its point and its radius. C lends such a list, so it lies as C lays it out.
#[repr(C)]
#[derive(Clone, Copy)]
pub struct Probe {
    pub x: u32,
    pub y: u32,
    pub r: u32,
}

// Why a call is refused: the error of every answer. Else an answer holds the entries built, the hits, the pairs or the rows given; of a start, 0;
// of a check, whether the tables are what the build leaves. The definition `paper` gives the numbers 1, 2, 3, 4, 5, 7, 6 and 8, in this order.
#[derive(Clone, Copy, Debug, PartialEq, Eq)]
pub enum Refusal {
    Sizes,
    Lengths,
    // the lowest footprint that meets it
    Footprint(u32),
    Place,
    Radius,
    Damage,
    // the numbers needed
    Room(u64),
    // the first bad or missing line
    Text(u32),
}

// Why a list of searches is refused: At holds a refusal and the index of the probe that meets it, 0 where it is of the sizes or the lengths, and
// Whole the one for room.
#[derive(Clone, Copy, Debug, PartialEq, Eq)]
pub enum ListRefusal {
    At(Refusal, u32),
    Whole(Refusal),
}

// A part of the entries: those from begin up to past.
#[derive(Clone, Copy, Debug, PartialEq, Eq)]
pub struct Part {
    pub begin: usize,
    pub past: usize,
}

#[derive(Clone, Copy, PartialEq, Eq)]
pub enum Direction {
    Up,
    Right,
    Down,
    Left,
}

// A group of some direction and level, a tile, or a footprint.
#[derive(Clone, Copy, PartialEq, Eq)]
pub enum Item {
    Group(Direction, u32),
    Tile(u32),
    Footprint(u32),
}

// What is taken off the front.
#[derive(Clone, Copy)]
pub struct Row {
    pub square: u64,
    pub item: Item,
}

// A waiting row as it lies in memory. Rows wait by square, then kind, then number: the order of the fields.
#[derive(Clone, Copy, PartialEq, Eq, PartialOrd, Ord)]
pub struct Three {
    pub square: u64,
    pub kind: u64,
    pub number: u64,
}

// The state of a walk: its point, how many rows wait, and the damage mark.
#[derive(Clone, Copy)]
pub struct Walk {
    pub x: u32,
    pub y: u32,
    pub waiting: usize,
    pub damaged: bool,
}

// A start's or an ask's answer, and the state after it.
#[derive(Clone, Copy)]
pub struct Walked {
    pub answer: Result<u64, Refusal>,
    pub walk: Walk,
}
