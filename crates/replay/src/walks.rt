// The calls of a walk: a start and an ask.
use crate::calls::Replay;
use crate::lent::{Memory, Table};
use outward::Told;
use rules::{Grid, Walk, Walked};
use std::io;
use std::io::{Read, Write};

impl<R: Read, W: Write> Replay<'_, R, W> {
    // The answer, and the state after it: x y waiting mark.
    fn put_walked(&mut self, walked: Walked) -> io::Result<()> {
        self.put_told(Told::from(walked.answer))?;
        let state = walked.walk;
        self.lines.put(u64::from(state.x))?;
        self.lines.put(u64::from(state.y))?;
        self.lines.put(state.waiting as u64)?;
        self.lines.put(u64::from(outward::mark_no(state.damaged)))
    }

    // The next state: x y waiting mark.
    fn next_walk(&mut self) -> io::Result<Walk> {
        let x = self.reader.next_as()?;
        let y = self.reader.next_as()?;
        let waiting = self.reader.next_as()?;
        let mark = self.reader.next_as()?;
        Ok(outward::walk_of(x, y, waiting, mark))
    }

    // 5 start: n side reg starts entries x y front; then x y waiting mark, front.
    pub(crate) fn start(&mut self, g: Grid, memory: &mut Memory) -> io::Result<()> {
        memory.left.read(&mut self.reader)?;
        let q = self.next_point()?;
        let mut front = Table::new();
        front.read(&mut self.reader)?;
        if !self.reader.is_open() {
            return Ok(());
        }
        let started = walk::start(g, &memory.left.lend(), q, front.as_mut_slice());
        self.put_walked(started)?;
        self.lines.put_table(front.as_slice())
    }

    // 6 ask: n side reg starts entries front x y waiting mark j out; then x y waiting mark, front, out.
    pub(crate) fn ask(&mut self, g: Grid, memory: &mut Memory) -> io::Result<()> {
        memory.left.read(&mut self.reader)?;
        let mut front = Table::new();
        front.read(&mut self.reader)?;
        let state = self.next_walk()?;
        let j = self.reader.next_as()?;
        let mut out = Table::new();
        out.read(&mut self.reader)?;
        if !self.reader.is_open() {
            return Ok(());
        }
        let asked = walk::ask(
            g,
            &memory.left.lend(),
            front.as_mut_slice(),
            state,
            j,
            out.as_mut_slice(),
        );
        self.put_walked(asked)?;
        self.lines.put_table(front.as_slice())?;
        self.lines.put_table(out.as_slice())
    }
}
