// A decimal of 1 to 7 digits, read from a slice at a place.
ghost use Rattle.std.specs.Prelude.{◌≡◌, ◌≤◌, true, length};
ghost use Rattle.std.specs.Char.{is_ascii_digit};
ghost use Rattle.std.specs.List.{prefix_len};
ghost use Rattle.laws.specs.Lists.{all};
ghost use Rattle.rules.specs.Text.{is_digit, value, is_decimal};
ghost use Rattle.sheet.specs.Places.{decimal_at};

// A decimal has so many digits at most.
const MOST_DIGITS: usize = 7;

// A decimal: its number, and the place behind its digits.
#[derive(Clone, Copy, PartialEq, Eq)]
pub struct Decimal {
    pub number: u32,
    pub end: usize,
}

// How many digits a text begins with.
fn digit_count(text: &[u8]) -> usize
    ensures { result ≡ prefix_len is_ascii_digit text.now }
{
    text.iter().take_while(|byte| byte.is_ascii_digit()).count()
}

// Whether digits are a decimal: 1 to 7 of them, no leading zero.
#[tactic(auto, using(std::proofs::lemmas::Bool::Decides::nat_tests), unfolding(rules::specs::Text::is_decimal))]
fn is_decimal(digits: &[u8]) -> bool
    ensures { result ≡ is_decimal digits.now }
{
    1 <= digits.len() && digits.len() <= MOST_DIGITS && (digits.len() == 1 || digits[0] != b'0')
}

// The number that digits say, 7 of them at most.
#[tactic(auto, using(crate::proofs::Digits::reading))]
fn value_of(digits: &[u8]) -> u32
    requires digits_alone { all is_digit digits.now ≡ true }
    requires few { length digits.now ≤ MOST_DIGITS }
    ensures { result ≡ value 0 digits.now }
{
    let mut number = 0;
    for digit in digits {
        number = 10 * number + u32::from(*digit - b'0');
    }
    number
}

// The decimal that stands at a place, whatever follows its digits.
#[tactic(auto, using(std::proofs::lemmas::Grind::common_steps, crate::proofs::Digits::a_decimal))]
pub fn number_at(text: &[u8], at: usize) -> Option<Decimal>
    ensures { result ≡ decimal_at text.now at }
{
    let rest = text.get(at..)?;
    let digits = &rest[..digit_count(rest)];
    if is_decimal(digits) {
        Some(Decimal {
            number: value_of(digits),
            end: at + digits.len(),
        })
    } else {
        None
    }
}
