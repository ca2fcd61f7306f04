// The text of a clean sheet, put into a buffer piece by piece: numbers, fields and records. Each function puts its piece from the place `at`
// on and answers the place behind it. An inner crate: its callers see that there is room.
#![tactic(auto)]

ghost use Rattle.std.specs.Prelude.{◌+◌, ◌≤◌, length};
ghost use Rattle.lines.specs.Decimal.{decimal_of};
ghost use Rattle.clean_sheets.specs.Clean.{number_text};
ghost use Rattle.sheet_text.specs.Pieces.{field_text, last_text, tail_text, opening_text, answer_text, Puts};

use rules::Opening;

// The digits of a number: those of its tenth part, and the last. By lines::put_number, into a line that is then
// copied, each number took 45 instructions more, and a line more would lie on the stack of busdekker_write.
fn put_digits(out: &mut [u8], at: usize, n: u32) -> usize
    requires { at + length (decimal_of n) ≤ length out.old }
    ensures { Puts out.old at (decimal_of n) out.new result }
{
    if n < 10 {
        out[at] = b'0' + n as u8;
        return at + 1;
    }
    let end = put_digits(out, at, n / 10);
    out[end] = b'0' + (n % 10) as u8;
    end + 1
}

// A number: a minus where it is below 0, and its digits.
fn put_integer(out: &mut [u8], at: usize, z: i32) -> usize
    requires { at + length (number_text z) ≤ length out.old }
    ensures { Puts out.old at (number_text z) out.new result }
{
    let n = z.unsigned_abs();
    if z < 0 {
        out[at] = b'-';
        return put_digits(out, at + 1, n);
    }
    put_digits(out, at, n)
}

// A number and the byte that ends its field.
fn put_field(out: &mut [u8], at: usize, z: i32, end: u8) -> usize
    requires { at + length (field_text z end) ≤ length out.old }
    ensures { Puts out.old at (field_text z end) out.new result }
{
    let last = put_integer(out, at, z);
    out[last] = end;
    last + 1
}

// The last number of a record, and CR LF.
fn put_last(out: &mut [u8], at: usize, z: i32) -> usize
    requires { at + length (last_text z) ≤ length out.old }
    ensures { Puts out.old at (last_text z) out.new result }
{
    let last = put_field(out, at, z, b'\r');
    out[last] = b'\n';
    last + 1
}

// The end of an opening's record: τ, and p where it is not 0, and CR LF.
fn put_tail(out: &mut [u8], at: usize, tolerance: i32, share: i32) -> usize
    requires { at + length (tail_text tolerance share) ≤ length out.old }
    ensures { Puts out.old at (tail_text tolerance share) out.new result }
{
    if share == 0 {
        return put_last(out, at, tolerance);
    }
    let last = put_field(out, at, tolerance, b',');
    put_last(out, last, share)
}

// The record of an opening: method,x0,x1,τ or method,x0,x1,τ,p and CR LF.
pub fn put_opening(out: &mut [u8], at: usize, o: Opening) -> usize
    requires { at + length (opening_text o) ≤ length out.old }
    ensures { Puts out.old at (opening_text o) out.new result }
{
    let a = put_field(out, at, o.method, b',');
    let b = put_field(out, a, o.first, b',');
    let c = put_field(out, b, o.second, b',');
    put_tail(out, c, o.tolerance, o.share)
}

// The record of an answer: point,value and CR LF.
pub fn put_answer(out: &mut [u8], at: usize, point: u32, value: i32) -> usize
    requires { at + length (answer_text point value) ≤ length out.old }
    ensures { Puts out.old at (answer_text point value) out.new result }
{
    let a = put_digits(out, at, point);
    out[a] = b',';
    put_last(out, a + 1, value)
}
