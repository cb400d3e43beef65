// Lines of the program's output, put one behind the other on a page.
ghost use Rattle.std.specs.Prelude.{[], ◌∷◌};
ghost use Rattle.rules.specs.Text.{decimal, line_of, hit_text, refusal_text, found_word};
ghost use Rattle.rules.specs.Refusals.{paper};
ghost use Rattle.sheet.specs.Put.{Puts};

use outward::Told;
use rules::Refusal;

// A lent output, and the place where the next byte is put. Where the output ends, nothing is put and the place stays.
#[derive(Drop)]
pub struct Page<'a> {
    pub out: &'a mut [u8],
    pub at: usize,
}

impl Page<'_> {
    fn put_byte(&mut self, byte: u8)
        ensures { Puts self.old (byte ∷ []) self.new }
    {
        if self.at < self.out.len() {
            self.out[self.at] = byte;
            self.at += 1;
        }
    }

    fn put_word(&mut self, word: &[u8])
        ensures { Puts self.old word.now self.new }
    {
        for byte in word {
            self.put_byte(*byte);
        }
    }

    // The decimal of n, without leading zeros.
    pub fn put_decimal(&mut self, n: u64)
        ensures { Puts self.old (decimal n) self.new }
    {
        if n < 10 {
            return self.put_byte(b'0' + n as u8);
        }
        self.put_decimal(n / 10);
        self.put_byte(b'0' + (n % 10) as u8);
    }

    // A line: its word, a decimal and LF.
    pub fn put_line(&mut self, word: &[u8], n: u64)
        ensures { Puts self.old (line_of word.now n) self.new }
    {
        self.put_word(word);
        self.put_decimal(n);
        self.put_byte(b'\n');
    }

    // The hit count of a question.
    pub fn put_found(&mut self, hits: u64)
        ensures { Puts self.old (line_of found_word hits) self.new }
    {
        self.put_line(b"found=", hits);
    }

    // Number and square of a hit.
    pub fn put_hit(&mut self, number: u32, square: u64)
        ensures { Puts self.old (hit_text number square) self.new }
    {
        self.put_line(b"no=", u64::from(number));
        self.put_line(b"square=", square);
    }

    // A refusal's number, and of a bad text the line.
    pub fn put_refusal(&mut self, refusal: Refusal)
        ensures { Puts self.old (refusal_text (paper refusal)) self.new }
    {
        let number = Told::from(refusal).number;
        self.put_line(b"refused=", u64::from(number));
        if let Refusal::Text(line) = refusal {
            self.put_line(b"line=", u64::from(line));
        }
    }
}
