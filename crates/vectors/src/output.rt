// Numbers and tables to an output, as standard output, gathered in a lent slice.
// After a write that fails some of the bytes that waited may be written, and all of them count as waiting still.
ghost use Rattle.std.specs.Prelude.{◌≡◌, ◌<◌, ◌≤◌, [], ◌++◌, length, cond, leb, OnOk, OnErr};

use std::io;
use std::io::Write;

// A decimal of 64 bits and LF.
const LINE: usize = 21;

// An output, the lent slice that lines for it are gathered in, and how many bytes there wait to be written.
#[derive(Drop)]
pub struct Lines<'a, W> {
    output: &'a mut W,
    out: &'a mut [u8],
    waiting: usize,
    pub ghost within: { waiting ≤ length out.now },
}

impl<'a, W: Write> Lines<'a, W> {
    ghost use Rattle.vectors.specs.Waits.{waits, room, line};

    pub fn new(output: &'a mut W, out: &'a mut [u8]) -> Self
        ensures waiting { result.waiting ≡ 0 }
        ensures slice { result.out.now ≡ out.old }
        ensures same_reference { result.out.ghost_name ≡ out.entry.ghost_name }
    {
        Self::with(output, out, 0)
    }

    // The same where so many bytes wait in the slice already; more than it holds count as none.
    pub fn with(output: &'a mut W, out: &'a mut [u8], waiting: usize) -> Self
        ensures waiting { result.waiting ≡ cond (leb waiting (length out.old)) waiting 0 }
        ensures slice { result.out.now ≡ out.old }
        ensures same_reference { result.out.ghost_name ≡ out.entry.ghost_name }
    {
        let waiting = if waiting <= out.len() { waiting } else { 0 };
        Lines {
            output,
            out,
            waiting,
        }
    }

    // The bytes that wait.
    pub fn waiting(&self) -> &[u8]
        ensures { result.now ≡ waits self.now }
    {
        &self.out[..self.waiting]
    }

    // Writes the bytes that wait. The slice stays as it was, so that after a write that fails the same bytes wait.
    pub fn flush(&mut self) -> io::Result<()>
        ensures ok { OnOk result (waits self.new ≡ []) }
        ensures err { OnErr result (self.new.waiting ≡ self.old.waiting) }
        ensures slice { self.new.out.now ≡ self.old.out.now }
        ensures lent { length self.new.out.now ≡ length self.old.out.now }
        ensures same_reference { self.new.out.ghost_name ≡ self.old.out.ghost_name }
    {
        let waiting = self.waiting;
        // held apart while it is read: read through self, it would be known by its length alone behind it
        let out = std::mem::take(&mut self.out);
        let written = self.output.write_all(&out[..waiting]);
        self.out = out;
        written?;
        self.waiting = 0;
        Ok(())
    }

    // How many bytes fit behind those that wait.
    fn room(&self) -> usize
        ensures { result ≡ room self.now }
    {
        self.out.len() - self.waiting
    }

    // Bytes behind those that wait, as many as fit.
    fn gather(&mut self, bytes: &[u8])
        ensures text { length bytes.now ≤ room self.old → waits self.new ≡ waits self.old ++ bytes.now }
        ensures lent { length self.new.out.now ≡ length self.old.out.now }
        ensures same_reference { self.new.out.ghost_name ≡ self.old.out.ghost_name }
    {
        let waiting = self.waiting;
        let count = self.room().min(bytes.len());
        let out = &mut *self.out;
        out[waiting..waiting + count].copy_from_slice(&bytes[..count]);
        self.waiting = waiting + count;
    }

    // A number, and LF.
    pub fn put(&mut self, n: u64) -> io::Result<()>
        ensures behind { OnOk result (21 ≤ room self.old → waits self.new ≡ waits self.old ++ line n) }
        ensures afresh { OnOk result (room self.old < 21 → 21 ≤ length self.old.out.now → waits self.new ≡ line n) }
        ensures err { OnErr result (self.new.waiting ≡ self.old.waiting) }
        ensures lent { length self.new.out.now ≡ length self.old.out.now }
        ensures same_reference { self.new.out.ghost_name ≡ self.old.out.ghost_name }
    {
        if self.room() < LINE {
            self.flush()?;
        }
        let mut digits = itoa::Buffer::new();
        self.gather(digits.format(n).as_bytes());
        self.gather(b"\n");
        Ok(())
    }

    // The numbers of a table. Also where a write fails, no more waits than the slice holds.
    pub fn put_table<N: Copy + Into<u64>>(&mut self, table: &[N]) -> io::Result<()>
        ensures lent { length self.new.out.now ≡ length self.old.out.now }
        ensures same_reference { self.new.out.ghost_name ≡ self.old.out.ghost_name }
    {
        for n in table {
            self.put((*n).into())?;
        }
        Ok(())
    }
}
