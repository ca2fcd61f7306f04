// What the programs share: one sheet is read from standard input, and one reply written to standard output, nothing more. Where the input
// cannot be read, or the reply cannot be written, that is said in words on standard error.
#![tactic(auto)]

ghost use Rattle.std.specs.Prelude.{◌≡◌};
ghost use Rattle.programs.specs.Ran.{Ran, Made, Told};

use replies::Reply;
use std::io::{Read, Write};

// How a run ended: the reply was written; or the input could not be read, and nothing was written; or the reply could not be written.
#[derive(Clone, Copy)]
pub enum Ending {
    Replied,
    Unreadable,
    Unwritable,
}

// Reads a sheet and writes the reply to it, which is made in `out`; or the words for the case that hinders that. Where `out` is too short
// for the reply, that case is the first.
pub fn run<I: Read, O: Write, E: Write>(
    input: &mut I,
    output: &mut O,
    error: &mut E,
    reply: Reply,
    out: &mut [u8],
    unreadable: &[u8],
    unwritable: &[u8],
) -> Ending
    ensures ran { Ran reply out.old out.new }
    ensures made { Made result reply (I.remaining input.old) out.old out.new }
    ensures told { Told result reply (I.remaining input.old) (O.contents output.old) (O.contents output.new) }
    ensures wordless { result ≡ Ending.Replied → error.new ≡ error.old }
{
    let mut text = [0u8; replies::ENOUGH];
    let filled = input::fill(input, &mut text);
    let length = replies::write_reply(reply, filled, &text, out);
    if length == 0 {
        let _ = error.write_all(unreadable);
        Ending::Unreadable
    } else if output.write_all(&out[..length]).is_err() {
        let _ = error.write_all(unwritable);
        Ending::Unwritable
    } else {
        Ending::Replied
    }
}
