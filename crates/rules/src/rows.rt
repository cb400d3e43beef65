// A waiting row as three numbers, and back: kind 0 is a group, 1 a tile, 2 a footprint.
#![tactic(auto, unfolding(crate::specs::Front::encoded, crate::specs::Front::decoded))]

ghost use Rattle.std.specs.Prelude.{◌≡◌, MatchResult, Some, None};
ghost use Rattle.rules.specs.Front.{direction, encoded, decoded};

use crate::{Direction, Item, Row, Three};

// A group's number is direction×64+level.
const LEVELS: u64 = 64;

// So the numbers of groups, of four directions, are below this.
const GROUPS: u64 = 256;

// No grid has more than 64×64 tiles.
const TILES: u64 = 4096;

// No register has more footprints.
const FOOTPRINTS: u64 = 65536;

impl From<Row> for Three {
    ghost from_gives = { λ r t. t ≡ encoded r };

    fn from(r: Row) -> Three {
        let (kind, number) = match r.item {
            Item::Group(d, level) => (0, d as u64 * LEVELS + u64::from(level)),
            Item::Tile(tile) => (1, u64::from(tile)),
            Item::Footprint(footprint) => (2, u64::from(footprint)),
        };
        Three {
            square: r.square,
            kind,
            number,
        }
    }
}

// The error is the numbers, which stand for no row.
impl TryFrom<Three> for Row {
    type Error = Three;

    ghost try_from_gives = { λ t r. MatchResult r (λ row. Some row ≡ decoded t) (λ e. (None ≡ decoded t) × (e ≡ t)) };

    fn try_from(t: Three) -> Result<Row, Three> {
        let item = match (t.kind, t.number) {
            (0, 0..GROUPS) => {
                Item::Group(direction_of(t.number / LEVELS), (t.number % LEVELS) as u32)
            }
            (1, 0..TILES) => Item::Tile(t.number as u32),
            (2, 0..FOOTPRINTS) => Item::Footprint(t.number as u32),
            _ => return Err(t),
        };
        Ok(Row {
            square: t.square,
            item,
        })
    }
}

// The direction of a number; every number past 2 is left.
fn direction_of(k: u64) -> Direction
    ensures { result ≡ direction k }
{
    match k {
        0 => Direction::Up,
        1 => Direction::Right,
        2 => Direction::Down,
        _ => Direction::Left,
    }
}
