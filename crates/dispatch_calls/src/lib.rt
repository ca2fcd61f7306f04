// The steps of a run of calls to a dispatcher, written down in lists: how many calls there are, and the call at a place, with its report in its
// place among the rows.
#![tactic(auto)]

ghost use Rattle.std.specs.Prelude.{◌≡◌, ◌+◌, ◌≤◌, length};
ghost use Rattle.dispatching.specs.Calls.{call_of};
ghost use Rattle.dispatch_calls.specs.Listed.{call_with, call_numbers, opening_at, answer_at, how_many, Before, CallMade};

use dispatching::{Dispatched, Dispatcher};
use rules::{Answer, Opening};

// The numbers that a call is written as, after its kind and its dryer; and those that its report is written as.
pub const CALL_NUMBERS: usize = 5;

pub const NUMBERS_EACH: usize = runs::NUMBERS_EACH;

// The opening and the answer whose numbers stand from a place on.
fn opening_at(numbers: &[i32], at: usize) -> Opening
    requires { at + call_numbers ≤ length numbers.now }
    ensures { result ≡ opening_at numbers.now at }
{
    let method = numbers[at];
    let first = numbers[at + 1];
    let second = numbers[at + 2];
    let tolerance = numbers[at + 3];
    let share = numbers[at + 4];
    Opening {
        method,
        first,
        second,
        tolerance,
        share,
    }
}

fn answer_at(numbers: &[i32], at: usize) -> Answer
    requires { at + call_numbers ≤ length numbers.now }
    ensures { result ≡ answer_at numbers.now at }
{
    let point = numbers[at];
    let value = numbers[at + 1];
    Answer { point, value }
}

// A call by its kind: 0 is an opening, any other an answer. A kind is a number, no enum: runs are lists of numbers, and every number is some kind.
fn call(kind: u8, d: Dispatcher, dryer: u32, o: Opening, a: Answer) -> Dispatched
    ensures { result ≡ call_of d (call_with kind dryer o a) }
{
    if kind == 0 {
        dispatch::open(d, dryer, o)
    } else {
        dispatch::enter(d, dryer, a)
    }
}

// How many calls there are: as far as the three lists go, and as far as there is room for the rows.
pub fn number_of_calls(kinds: &[u8], dryers: &[u32], numbers: &[i32], rows: &[u32]) -> usize
    ensures { result ≡ how_many kinds.now dryers.now numbers.now rows.now }
{
    let room = rows.len() / NUMBERS_EACH;
    let written = numbers.len() / CALL_NUMBERS;
    room.min(kinds.len()).min(dryers.len()).min(written)
}

// The call at a place of the lists, and its report in its place among the rows. It is beside runs::call_at, not one function over both with a
// closure for the call: the lists differ, and what they share are the two lines that store the report.
pub fn call_at(
    i: usize,
    d: Dispatcher,
    kinds: &[u8],
    dryers: &[u32],
    numbers: &[i32],
    rows: &mut [u32],
) -> Dispatcher
    requires { Before i kinds.now dryers.now numbers.now rows.old }
    ensures { CallMade i d kinds.now dryers.now numbers.now rows.old result rows.new }
{
    let at = CALL_NUMBERS * i;
    let o = opening_at(numbers, at);
    let told = call(kinds[i], d, dryers[i], o, answer_at(numbers, at));
    calls::put_row(rows, NUMBERS_EACH * i, rows::row_of(told.report));
    told.dispatcher
}
