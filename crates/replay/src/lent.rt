// Tables in memory of their own: a call's are read where they lie, and lent at exactly their lengths.
ghost use Rattle.std.specs.Prelude.{◌≡◌, ◌≤◌, OnErr};
ghost use Rattle.vectors.specs.declared.input.State.TheVariants.{Open};

use std::io;
use std::io::Read;
use tables::Lent;
use vectors::Number;
use vectors::input::Reader;

// How many numbers a table has at most.
const MOST: usize = 4096;

// So many numbers at the beginning of a table's memory.
#[derive(Drop)]
pub(crate) struct Table<N> {
    memory: [N; MOST],
    length: usize,
    ghost within: { length ≤ 4096 },
}

impl<N: Number> Table<N> {
    pub(crate) fn new() -> Table<N> {
        Table {
            memory: [N::narrow(0); MOST],
            length: 0,
        }
    }

    // The next table, read into this one's memory.
    pub(crate) fn read<R: Read>(&mut self, reader: &mut Reader<R>) -> io::Result<()>
        ensures { OnErr result (reader.new.state ≡ Open) }
    {
        self.length = reader.next_table(&mut self.memory)?;
        Ok(())
    }

    pub(crate) fn as_slice(&self) -> &[N] {
        &self.memory[..self.length]
    }

    pub(crate) fn as_mut_slice(&mut self) -> &mut [N] {
        let length = self.length;
        let memory = &mut self.memory;
        &mut memory[..length]
    }
}

// A register, and the starts and the entries that an index of it has.
#[derive(Drop)]
pub(crate) struct Tables {
    pub(crate) reg: Table<u32>,
    pub(crate) starts: Table<u32>,
    pub(crate) entries: Table<u32>,
}

impl Tables {
    pub(crate) fn new() -> Tables {
        Tables {
            reg: Table::new(),
            starts: Table::new(),
            entries: Table::new(),
        }
    }

    // The next three tables, read into these ones' memory.
    pub(crate) fn read<R: Read>(&mut self, reader: &mut Reader<R>) -> io::Result<()>
        ensures { OnErr result (reader.new.state ≡ Open) }
    {
        self.reg.read(reader)?;
        self.starts.read(reader)?;
        self.entries.read(reader)
    }

    // The tables, of exactly their lengths.
    pub(crate) fn lend(&self) -> Lent<'_, u32> {
        Lent {
            reg: self.reg.as_slice(),
            starts: self.starts.as_slice(),
            entries: self.entries.as_slice(),
        }
    }
}

// The tables that most calls read: a register and its index, and an output of hits or pairs. They are large, so they are made once and neither
// moved nor cleared from call to call: a call sees no further than the lengths of its own. What a join or a walk reads beside them it makes.
#[derive(Drop)]
pub(crate) struct Memory {
    pub(crate) left: Tables,
    pub(crate) out: Table<u32>,
}

impl Memory {
    pub(crate) fn new() -> Memory {
        Memory {
            left: Tables::new(),
            out: Table::new(),
        }
    }
}
