// The program's input: what a reader gives, as standard input, read into a buffer.
#![tactic(auto)]

ghost use Rattle.input.specs.Input.{Within, Took};

use std::io::Read;

// What was read: the buffer is full; or the input ended, after so many bytes, fewer than the buffer holds; or a read failed.
#[derive(Clone, Copy)]
pub enum Filled {
    Full,
    Ended(usize),
    Failed,
}

// Reads until the buffer is full, the input ends or a read fails; a read that a signal interrupts before it moves a byte is one that failed.
// A loop of its own: std's read_exact does not say how many bytes came before the end, and read_to_end needs a heap.
pub fn fill<R: Read>(from: &mut R, buf: &mut [u8]) -> Filled
    ensures within { Within result buf.new }
    ensures took { Took result buf.new (R.remaining from.old) (R.remaining from.new) }
{
    let mut done: usize = 0;
    while done < buf.len() {
        match from.read(&mut buf[done..]) {
            Ok(0) => return Filled::Ended(done),
            Ok(n) => done += n,
            Err(_) => return Filled::Failed,
        }
    }
    Filled::Full
}
