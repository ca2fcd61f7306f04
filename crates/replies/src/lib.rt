// What a program replies to an input, from what was read of it. Crate `programs` has the buffers and writes the reply.
#![tactic(auto)]

ghost use Rattle.input.specs.Input.{Within};
ghost use Rattle.replies.specs.Reply.{Replied, Answers};

use input::Filled;

// One byte more than the longest text: an input that fills the buffer is too long, whatever follows.
pub const ENOUGH: usize = forms::LONGEST_TEXT + 1;

// What is replied to a sheet: the record of its report, the sheet cleaned, or the old sheet changed over.
// An enum, no closure that makes the reply: `write_reply` and programs::run promise what each of the three is, and of a closure they could only
// promise what its maker says, which is a program's main, and a main has no contract.
#[derive(Clone, Copy)]
pub enum Reply {
    Record,
    CleanSheet,
    ChangedSheet,
}

// The reply to a whole text, written at the beginning of `out`, and its length; `out` too short is left alone, and the answer is 0.
fn reply_to(reply: Reply, text: &[u8], out: &mut [u8]) -> usize
    ensures { Replied reply text.now out.old result out.new }
{
    match reply {
        Reply::Record => sheet::answer_sheet(text, out),
        Reply::CleanSheet => cleaning::clean_sheet(text, out),
        Reply::ChangedSheet => old_sheets::change_sheet(text, out),
    }
}

// Writes the reply to the input, of which the buffer holds all or, where it is full, the beginning; and answers the reply's length.
// Where a read failed there is none: nothing is written, and the answer is 0.
pub fn write_reply(reply: Reply, filled: Filled, text: &[u8; ENOUGH], out: &mut [u8]) -> usize
    requires { Within filled text.now }
    ensures { Answers reply filled text.now out.old result out.new }
{
    let bytes: &[u8] = text;
    match filled {
        Filled::Full => reply_to(reply, bytes, out),
        Filled::Ended(n) => reply_to(reply, &bytes[..n], out),
        Filled::Failed => 0,
    }
}
