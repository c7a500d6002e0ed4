// The program's input and output around console: what it reads from any reader, and prints to any writer.
#![tactic(auto)]

ghost use Rattle.std.specs.Prelude.{◌≤◌, length, take};
ghost use Rattle.std.specs.Io.KnownBytes.{Consumes};
ghost use Rattle.terminal.specs.Session.{Answers};

use std::io;
use std::io::{Input, Print, Read, Write};

// Reads until the buffer is full, the input ends or a read fails, and gives how many bytes it put at the buffer's start. A loop
// by hand: a read gives any number of bytes, and read_exact would lose the count where the input is shorter.
#[tactic(auto, using(crate::proofs::Filling::nothing, crate::proofs::Filling::more, crate::proofs::Filling::end, crate::proofs::Filling::failed))]
fn fill<R: Read>(reader: &mut R, buffer: &mut [u8]) -> usize
    ensures bound { result ≤ length buffer.new }
    ensures bytes { Consumes (R.remaining reader.old) (R.remaining reader.new) (take result buffer.new) }
{
    let mut count: usize = 0;
    while count < buffer.len() {
        match reader.read(&mut buffer[count..]) {
            Ok(0) => break,
            Ok(n) => count += n,
            Err(_) => break,
        }
    }
    count
}

// Reads the input to its end, or to one byte more than is taken, and writes the transcript. A read that fails ends the input; the
// error of a write that fails is returned.
pub fn answer<R: Read, W: Write>(reader: &mut R, writer: &mut W) -> io::Result<()>
    ensures { Answers (R.remaining reader.old) (R.remaining reader.new)
        (W.contents writer.old) (W.contents writer.new) result }
{
    // Arrays and no Vec: console::transcript takes the longest transcript's array, and no run ends for want of memory.
    let mut input = [0u8; console::INPUT_LIMIT + 1];
    let count = fill(reader, &mut input);
    let mut out = [0u8; console::LONGEST_TRANSCRIPT];
    let length = console::transcript(&input[..count], &mut out);
    writer.write_all(&out[..length])
}

// The same on standard input and output. Nothing more is promised: of what a system call reads or writes no contract can speak.
pub fn run<R: Input + Print>(rt: &R) -> io::Result<()> {
    answer(&mut rt.reader(), &mut io::writer(rt))
}
