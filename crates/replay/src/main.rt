// Runs calls that are written as numbers on standard input, and answers each with numbers on standard output.
// A call is its code and its parameters; a table is its length and its numbers. The answer is the refusal's number, 0 for accepted,
// and the value, then every lent output table and state as it is afterwards.
#![tactic(auto)]

mod calls; // calls.rt: the parameters of each call read, and its answer put
mod lent; // lent.rt: the tables that a call lends
mod walks; // walks.rt: the calls of a walk

use calls::Replay;
use lent::Memory;
use std::io;
use std::io::{Read, Write};

// How many bytes are read at once, and how many of the answers are gathered.
const BUFFER: usize = 65536;

// Answers calls until the input ends before one, or breaks. After a read or a write that fails what waits is not written.
fn replay<R: Read, W: Write>(
    input: &mut R,
    buffer: &mut [u8],
    output: &mut W,
    out: &mut [u8],
) -> io::Result<()> {
    let mut memory = Memory::new();
    let mut replay = Replay::new(input, buffer, output, out);
    if !replay.answer_all(&mut memory)? {
        output.write_all(b"stop\n")?;
    }
    Ok(())
}

fn main(rt: HostRuntime) -> io::Result<()> {
    let mut buffer = [0u8; BUFFER];
    let mut out = [0u8; BUFFER];
    replay(&mut rt.stdin(), &mut buffer, &mut rt.stdout(), &mut out)
}
