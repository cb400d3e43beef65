// The calls: each reads its parameters, lends them as tables of exactly their lengths, and puts the answer. A read or a write that
// fails ends the call; what was read of it is lost, and what waits is not written.
use crate::lent::{Memory, Tables};
use outward::Told;
use rules::{Grid, Point};
use std::io;
use std::io::{Read, Write};
use vectors::input::{Reader, State};
use vectors::output::Lines;

// How many calls are answered at most.
const CALLS: u64 = 4294967296;

// The calls that come in, and the answers that go out.
#[derive(Drop)]
pub(crate) struct Replay<'a, R, W> {
    pub(crate) reader: Reader<'a, R>,
    pub(crate) lines: Lines<'a, W>,
}

impl<'a, R: Read, W: Write> Replay<'a, R, W> {
    pub(crate) fn new(
        input: &'a mut R,
        buffer: &'a mut [u8],
        output: &'a mut W,
        out: &'a mut [u8],
    ) -> Self {
        Replay {
            reader: Reader::new(input, buffer),
            lines: Lines::new(output, out),
        }
    }

    // Answers calls, and writes the answers: whether the input ended before a call, and did not break.
    pub(crate) fn answer_all(&mut self, memory: &mut Memory) -> io::Result<bool> {
        for _ in 0..CALLS {
            let code = self.reader.next_number(u64::MAX)?;
            if self.reader.is_over() {
                break;
            }
            let g = Grid {
                n: self.reader.next_as()?,
                side: self.reader.next_as()?,
            };
            match code {
                1 => self.build(g, memory)?,
                2 => self.check(g, memory)?,
                3 => self.run(g, memory)?,
                4 => self.search(g, memory)?,
                5 => self.start(g, memory)?,
                6 => self.ask(g, memory)?,
                7 => self.join(g, memory)?,
                _ => self.unknown(memory)?,
            }
            if !self.reader.is_open() {
                self.lines.flush()?;
                return Ok(false);
            }
        }
        self.lines.flush()?;
        Ok(true)
    }

    // At an unknown code the input counts as broken, behind three tables.
    fn unknown(&mut self, memory: &mut Memory) -> io::Result<()> {
        memory.left.read(&mut self.reader)?;
        self.reader.shut(State::Broken);
        Ok(())
    }

    // The next point: x y.
    pub(crate) fn next_point(&mut self) -> io::Result<Point> {
        Ok(Point {
            x: self.reader.next_as()?,
            y: self.reader.next_as()?,
        })
    }

    // The refusal's number and the value.
    pub(crate) fn put_told(&mut self, told: Told) -> io::Result<()> {
        self.lines.put(u64::from(told.number))?;
        self.lines.put(told.value)
    }

    // 1 build: n side reg starts entries; then starts, entries.
    fn build(&mut self, g: Grid, memory: &mut Memory) -> io::Result<()> {
        let t = &mut memory.left;
        t.read(&mut self.reader)?;
        if !self.reader.is_open() {
            return Ok(());
        }
        let built = index::build(
            g,
            t.reg.as_slice(),
            t.starts.as_mut_slice(),
            t.entries.as_mut_slice(),
        );
        self.put_told(Told::from(built))?;
        self.lines.put_table(t.starts.as_slice())?;
        self.lines.put_table(t.entries.as_slice())
    }

    // 2 check: n side reg starts entries; then nothing.
    fn check(&mut self, g: Grid, memory: &mut Memory) -> io::Result<()> {
        let t = &mut memory.left;
        t.read(&mut self.reader)?;
        if !self.reader.is_open() {
            return Ok(());
        }
        self.put_told(Told::from(index::check(g, &t.lend())))
    }

    // 3 run: n side starts entries tile class; then where the part begins, and its numbers.
    fn run(&mut self, g: Grid, memory: &mut Memory) -> io::Result<()> {
        let t = &mut memory.left;
        t.starts.read(&mut self.reader)?;
        t.entries.read(&mut self.reader)?;
        let tile = self.reader.next_as()?;
        let class = self.reader.next_as()?;
        if !self.reader.is_open() {
            return Ok(());
        }
        let (starts, entries) = (t.starts.as_slice(), t.entries.as_slice());
        match tables::run_ends(g, starts, entries.len(), tile, class) {
            Ok(part) => {
                let run = tables::run(g, starts, entries, tile, class);
                self.lines.put(0)?;
                self.lines.put(run.len() as u64)?;
                self.lines.put(part.begin as u64)?;
                self.lines.put_table(run)
            }
            Err(why) => {
                self.put_told(Told::from(why))?;
                self.lines.put(0)
            }
        }
    }

    // 4 search: n side reg starts entries x y r out; then out.
    fn search(&mut self, g: Grid, memory: &mut Memory) -> io::Result<()> {
        memory.left.read(&mut self.reader)?;
        let q = self.next_point()?;
        let r = self.reader.next_as()?;
        memory.out.read(&mut self.reader)?;
        if !self.reader.is_open() {
            return Ok(());
        }
        let found = search::search(g, &memory.left.lend(), q, r, memory.out.as_mut_slice());
        self.put_told(Told::from(found))?;
        self.lines.put_table(memory.out.as_slice())
    }

    // 7 join: n side regR startsR entriesR regS startsS entriesS r out; then out.
    fn join(&mut self, g: Grid, memory: &mut Memory) -> io::Result<()> {
        memory.left.read(&mut self.reader)?;
        let mut right = Tables::new();
        right.read(&mut self.reader)?;
        let r = self.reader.next_as()?;
        memory.out.read(&mut self.reader)?;
        if !self.reader.is_open() {
            return Ok(());
        }
        let joined = join::join(
            g,
            &memory.left.lend(),
            &right.lend(),
            r,
            memory.out.as_mut_slice(),
        );
        self.put_told(Told::from(joined))?;
        self.lines.put_table(memory.out.as_slice())
    }
}
