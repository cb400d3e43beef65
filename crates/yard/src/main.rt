// The text program: a register and its questions come from standard input, and what lies near each question goes to standard output.
// The text is judged whole, then the limits, then the build; each question's lines are printed when it is answered. A refusal is printed
// and ends the program. A read or a write that fails ends it too: main returns the error, and nothing more is printed.
#![tactic(auto)]

ghost use Rattle.std.specs.Prelude.{◌+◌, ◌*◌, ◌≤◌, length, IfOk};

use rules::{Grid, Point, Refusal};
use sheet::Page;
use std::io::{self, Read, Write};
use tables::Lent;

// The starts of 16 runs for each of the most tiles, and the most entries.
const STARTS: usize = 16 * (sheet::MOST_TILES * sheet::MOST_TILES) as usize + 1;

const ENTRIES: usize = 8192;

// The most hits of a question, and the most bytes that it prints.
const HITS: usize = sheet::MOST_FOOTPRINTS as usize;

const OUTPUT: usize = 16384;

// Why the program ends before its last question: a refusal, which is still to print, or a read or a write that fails.
#[derive(Drop)]
enum Stop {
    Refused(Refusal),
    Failed(io::Error),
}

impl From<Refusal> for Stop {
    fn from(why: Refusal) -> Stop {
        Stop::Refused(why)
    }
}

impl From<io::Error> for Stop {
    fn from(error: io::Error) -> Stop {
        Stop::Failed(error)
    }
}

// A grid, a register and its index.
#[derive(Drop)]
struct Yard<'a> {
    g: Grid,
    t: Lent<'a, u32>,
}

impl Yard<'_> {
    // Answers and prints one question, and says whether it was refused.
    fn ask<W: Write>(&self, output: &mut W, q: Point, r: u32) -> io::Result<bool> {
        let mut hits = [0u32; HITS];
        let mut out = [0u8; OUTPUT];
        let answer = answers::answer(self.g, &self.t, q, r, &mut hits, &mut out);
        let (Ok(count) | Err(count)) = answer;
        output.write_all(&out[..count])?;
        Ok(answer.is_err())
    }

    // Asks questions of three numbers each, until one is refused.
    fn ask_all<W: Write>(&self, output: &mut W, questions: &[u32]) -> io::Result<()> {
        for question in questions.chunks_exact(3) {
            let q = Point {
                x: question[0],
                y: question[1],
            };
            if self.ask(output, q, question[2])? {
                break;
            }
        }
        Ok(())
    }
}

// Reads until the text is full or the input ends, and says how many bytes of the text are read. After a read that fails what was read is
// lost.
fn read_full<R: Read>(input: &mut R, text: &mut [u8]) -> io::Result<usize>
    ensures { IfOk result (λ count. count ≤ length text.new) }
{
    let mut count = 0;
    while count < text.len() {
        let more = input.read(&mut text[count..])?;
        if more == 0 {
            break;
        }
        count += more;
    }
    Ok(count)
}

// Answers a good text: its numbers are n, side, the register and the questions. Of the starts the build is lent as many as the grid needs.
fn answer_all<W: Write>(output: &mut W, numbers: &[u32], footprints: u32) -> Result<(), Stop>
    requires { 2 + 4 * footprints ≤ length numbers.now }
{
    let g = Grid {
        n: numbers[0],
        side: numbers[1],
    };
    sheet::within(g, footprints)?;
    let (reg, questions) = numbers[2..].split_at(4 * footprints as usize);
    let mut starts = [0u32; STARTS];
    let mut entries = [0u32; ENTRIES];
    let starts = &mut starts[..16 * grid::tile_count(g) + 1];
    index::build(g, reg, starts, &mut entries)?;
    let t = Lent {
        reg,
        starts,
        entries: &entries,
    };
    Yard { g, t }.ask_all(output, questions)?;
    Ok(())
}

// Reads a text, judges it whole, and answers it.
fn run<R: Read, W: Write>(input: &mut R, output: &mut W) -> Result<(), Stop> {
    let mut text = [0u8; sheet::MOST_BYTES + 1];
    let mut numbers = [0u32; sheet::MOST_NUMBERS];
    let count = read_full(input, &mut text)?;
    let said = sheet::judge(&text[..count], &mut numbers)?;
    answer_all(output, &numbers[..said.numbers], said.footprints)
}

// Prints a refusal, which has 26 bytes at most.
fn refuse<W: Write>(output: &mut W, why: Refusal) -> io::Result<()> {
    let mut out = [0u8; 64];
    let mut page = Page {
        out: &mut out,
        at: 0,
    };
    page.put_refusal(why);
    let count = page.at;
    output.write_all(&out[..count])
}

fn main(rt: HostRuntime) -> io::Result<()> {
    let mut output = rt.stdout();
    match run(&mut rt.stdin(), &mut output) {
        Ok(()) => Ok(()),
        Err(Stop::Refused(why)) => refuse(&mut output, why),
        Err(Stop::Failed(error)) => Err(error),
    }
}
