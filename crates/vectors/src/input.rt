// Numbers and tables from an input, as standard input, in whatever pieces it comes.
ghost use Rattle.std.specs.Prelude.{◌≡◌, ◌≤◌, ◌↔◌, length, IsTrue, IfSome, IfOk, OnErr};
ghost use Rattle.vectors.specs.Decimal.{pushed};

use crate::Number;
use std::io;
use std::io::Read;

// How many bytes a number has at most, zeros in front of it included.
const LONGEST: u64 = 4294967296;

// Numbers may come; the input ended where one would begin; what came is no number that is asked for.
#[derive(Clone, Copy, PartialEq, Eq)]
pub enum State {
    Open,
    Over,
    Broken,
}

// An input, the lent buffer that its pieces come in, how many bytes of the piece there are read and how many it has, and whether more may come.
#[derive(Drop)]
pub struct Reader<'a, R> {
    input: &'a mut R,
    buffer: &'a mut [u8],
    read: usize,
    held: usize,
    state: State,
}

impl<'a, R: Read> Reader<'a, R> {
    pub fn new(input: &'a mut R, buffer: &'a mut [u8]) -> Self
        ensures state { result.state ≡ State.Open }
        ensures slice { result.buffer.now ≡ buffer.old }
        ensures same_reference { result.buffer.ghost_name ≡ buffer.entry.ghost_name }
    {
        Self::with(input, buffer, 0, 0, State::Open)
    }

    // The same from a place in a piece that the buffer holds already.
    pub fn with(
        input: &'a mut R,
        buffer: &'a mut [u8],
        read: usize,
        held: usize,
        state: State,
    ) -> Self
        ensures read { result.read ≡ read }
        ensures held { result.held ≡ held }
        ensures state { result.state ≡ state }
        ensures slice { result.buffer.now ≡ buffer.old }
        ensures same_reference { result.buffer.ghost_name ≡ buffer.entry.ghost_name }
    {
        Reader {
            input,
            buffer,
            read,
            held,
            state,
        }
    }

    // Where the reading stands, as `with` takes it: how many bytes of the piece are read, how many it has, and whether more may come.
    pub fn place(&self) -> (usize, usize, State)
        ensures { result ≡ (self.now.read, self.now.held, self.now.state) }
    {
        (self.read, self.held, self.state)
    }

    pub fn is_open(&self) -> bool
        ensures { IsTrue result ↔ self.now.state ≡ State.Open }
    {
        self.state == State::Open
    }

    pub fn is_over(&self) -> bool
        ensures { IsTrue result ↔ self.now.state ≡ State.Over }
    {
        self.state == State::Over
    }

    // Ends the reading; what is read from then on is 0. The piece and the place in it stay.
    pub fn shut(&mut self, state: State) -> u64
        ensures zero { result ≡ 0 }
        ensures state { self.new.state ≡ state }
        ensures place { (self.new.read ≡ self.old.read) × (self.new.held ≡ self.old.held) }
        ensures slice { self.new.buffer.now ≡ self.old.buffer.now }
        ensures lent { length self.new.buffer.now ≡ length self.old.buffer.now }
        ensures same_reference { self.new.buffer.ghost_name ≡ self.old.buffer.ghost_name }
    {
        self.state = state;
        0
    }

    // The next byte: from the buffer, or from the input's next piece. The state stays, and a read that fails leaves the place as it was.
    fn next_byte(&mut self) -> io::Result<Option<u8>>
        ensures state { self.new.state ≡ self.old.state }
        ensures err { OnErr result ((self.new.read ≡ self.old.read) × (self.new.held ≡ self.old.held)) }
        ensures lent { length self.new.buffer.now ≡ length self.old.buffer.now }
        ensures same_reference { self.new.buffer.ghost_name ≡ self.old.buffer.ghost_name }
    {
        if self.held.min(self.buffer.len()) <= self.read {
            self.held = self.input.read(self.buffer)?;
            self.read = 0;
            if self.held == 0 {
                return Ok(None);
            }
        }
        let at = self.read;
        self.read += 1;
        Ok(self.buffer.get(at).copied())
    }

    // The next number, which is at most most: digits, then LF. Else the reading ends. A read that fails loses the digits before it and
    // leaves the reading open.
    pub fn next_number(&mut self, most: u64) -> io::Result<u64>
        ensures most { IfOk result (λ r. r ≤ most) }
        ensures err { OnErr result (self.new.state ≡ State.Open) }
        ensures lent { length self.new.buffer.now ≡ length self.old.buffer.now }
        ensures same_reference { self.new.buffer.ghost_name ≡ self.old.buffer.ghost_name }
    {
        if !self.is_open() {
            return Ok(self.shut(State::Broken));
        }
        let mut number = None;
        for _ in 0..LONGEST {
            number = match (number, self.next_byte()?) {
                (None, None) => return Ok(self.shut(State::Over)),
                (Some(value), Some(b'\n')) => return Ok(value),
                (before, Some(byte)) => push(before.unwrap_or(0), byte, most),
                (Some(_), None) => None,
            };
            if number.is_none() {
                break;
            }
        }
        Ok(self.shut(State::Broken))
    }

    // The next number of a type. A read that fails leaves the reading open.
    pub fn next_as<N: Number>(&mut self) -> io::Result<N>
        ensures most { IfOk result (λ r. N.number r ≤ N.MOST) }
        ensures err { OnErr result (self.new.state ≡ State.Open) }
        ensures lent { length self.new.buffer.now ≡ length self.old.buffer.now }
        ensures same_reference { self.new.buffer.ghost_name ≡ self.old.buffer.ghost_name }
    {
        Ok(N::narrow(self.next_number(N::MOST)?))
    }

    // The next table, put at the beginning of memory, which it must fit; its length. A read that fails may leave a part of the table in
    // memory, and leaves the reading open.
    pub fn next_table<N: Number>(&mut self, memory: &mut [N]) -> io::Result<usize>
        ensures within { IfOk result (λ r. r ≤ length memory.new) }
        ensures err { OnErr result (self.new.state ≡ State.Open) }
        ensures lent { length self.new.buffer.now ≡ length self.old.buffer.now }
        ensures same_reference { self.new.buffer.ghost_name ≡ self.old.buffer.ghost_name }
    {
        let length = self.next_number(memory.len() as u64)? as usize;
        for place in &mut memory[..length] {
            *place = self.next_as()?;
        }
        Ok(length)
    }
}

// A number with a digit behind it, where the byte is one and the number stays within most.
#[tactic(auto, unfolding(crate::specs::Decimal::pushed))]
fn push(value: u64, byte: u8, most: u64) -> Option<u64>
    ensures pushed { result ≡ pushed value byte most }
    ensures within { IfSome result (λ r. r ≤ most) }
{
    if !byte.is_ascii_digit() {
        return None;
    }
    let longer = value.checked_mul(10)?.checked_add(u64::from(byte - b'0'))?;
    (longer <= most).then_some(longer)
}
