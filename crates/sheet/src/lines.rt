// A line of a text, read at a place.
ghost use Rattle.std.specs.Prelude.{◌≡◌, map};
ghost use Rattle.rules.specs.Text.{word, follow, may_end, ends_footprint};
ghost use Rattle.sheet.specs.Places.{key_of, numbered_at, read_at};

use crate::decimals::number_at;

// The key of a line; Start stands before the first.
#[derive(Clone, Copy, PartialEq, Eq)]
pub enum Key {
    Start,
    Tiles,
    Side,
    Xlo,
    Ylo,
    Xhi,
    Yhi,
    X,
    Y,
    R,
}

// A line: its key, its number and the place behind it.
#[derive(Clone, Copy, PartialEq, Eq)]
pub struct Line {
    pub key: Key,
    pub number: u32,
    pub behind: usize,
}

impl Key {
    // The word that a line of the key begins with.
    #[tactic(auto, unfolding(rules::specs::Text::word, crate::specs::Places::key_of))]
    fn word(self) -> &'static [u8]
        ensures { result.now ≡ word (key_of self) }
    {
        match self {
            Key::Start => b"",
            Key::Tiles => b"tiles=",
            Key::Side => b"side=",
            Key::Xlo => b"xlo=",
            Key::Ylo => b"ylo=",
            Key::Xhi => b"xhi=",
            Key::Yhi => b"yhi=",
            Key::X => b"x=",
            Key::Y => b"y=",
            Key::R => b"r=",
        }
    }

    // The keys of which one may stand behind a line of the key.
    #[tactic(auto, unfolding(rules::specs::Text::follow, crate::specs::Places::key_of))]
    fn followers(self) -> &'static [Key]
        ensures { map key_of result.now ≡ follow (key_of self) }
    {
        match self {
            Key::Start => &[Key::Tiles],
            Key::Tiles => &[Key::Side],
            Key::Side | Key::Yhi => &[Key::Xlo, Key::X],
            Key::Xlo => &[Key::Ylo],
            Key::Ylo => &[Key::Xhi],
            Key::Xhi => &[Key::Yhi],
            Key::X => &[Key::Y],
            Key::Y => &[Key::R],
            Key::R => &[Key::X],
        }
    }

    // Whether a text may end behind a line of the key.
    #[tactic(auto, unfolding(rules::specs::Text::may_end, crate::specs::Places::key_of))]
    pub fn may_end(self) -> bool
        ensures { result ≡ may_end (key_of self) }
    {
        matches!(self, Key::Side | Key::Yhi | Key::R)
    }

    // 1 for the key that a footprint ends with, else 0.
    #[tactic(auto, unfolding(rules::specs::Text::ends_footprint, crate::specs::Places::key_of))]
    pub fn ends_footprint(self) -> u32
        ensures { result ≡ ends_footprint (key_of self) }
    {
        u32::from(self == Key::Yhi)
    }
}

// A line of a key whose word ends at a place: a decimal and LF.
#[tactic(auto, using(crate::proofs::Words::a_line))]
fn number_line(text: &[u8], at: usize, key: Key) -> Option<Line>
    ensures { result ≡ numbered_at (key_of key) text.now at }
{
    let decimal = number_at(text, at)?;
    if decimal.end < text.len() && text[decimal.end] == b'\n' {
        Some(Line {
            key,
            number: decimal.number,
            behind: decimal.end + 1,
        })
    } else {
        None
    }
}

// The line at a place, behind one of a key.
pub fn line_at(text: &[u8], at: usize, last: Key) -> Option<Line>
    ensures { result ≡ read_at (follow (key_of last)) text.now at }
{
    let rest = text.get(at..)?;
    for key in last.followers() {
        let word = key.word();
        if rest.starts_with(word) {
            return number_line(text, at + word.len(), *key);
        }
    }
    None
}
