// The calls on a dispatcher with what they tell as plain numbers, by value: what the interface for C does to the host's own dispatcher.
// busdekker_dispatch_enter alone calls dispatch::enter itself, for its limit of stack.
#![tactic(auto)]

ghost use Rattle.std.specs.Prelude.{◌≡◌};
ghost use Rattle.rules.specs.Rows.{row_of};
ghost use Rattle.dispatching.specs.Dispatching.{turn_of, opening_at, answer_at, dryer_report};
ghost use Rattle.dispatch_numbers.specs.Numbers.{turn_number, dispatched_row_of};

use dispatching::{Dispatched, Dispatcher};
use rules::{Answer, Opening, Row};

// A report as plain numbers, and beside it the dispatcher as it then is.
#[derive(Clone, Copy)]
pub struct DispatchedRow {
    pub report: Row,
    pub dispatcher: Dispatcher,
}

// The same from a call's answer.
fn numbered(told: Dispatched) -> DispatchedRow
    ensures { result ≡ dispatched_row_of told }
{
    DispatchedRow {
        report: rows::row_of(told.report),
        dispatcher: told.dispatcher,
    }
}

// The dryer that has the turn, or 6 where nobody has it: the interface for C has a number for both.
pub fn step_turn(d: Dispatcher) -> u32
    ensures { result ≡ turn_number (turn_of d) }
{
    dispatch::turn(d).unwrap_or(dispatching::DRYERS)
}

// The report of a dryer's search.
pub fn step_ask(d: Dispatcher, dryer: u32) -> Row
    ensures { result ≡ row_of (dryer_report d dryer) }
{
    rows::row_of(dispatch::report(d, dryer))
}

// An opening for a dryer.
pub fn step_open(d: Dispatcher, dryer: u32, opening: Opening) -> DispatchedRow
    ensures { result ≡ dispatched_row_of (opening_at d dryer opening) }
{
    numbered(dispatch::open(d, dryer, opening))
}

// An answer for a dryer.
pub fn step_enter(d: Dispatcher, dryer: u32, answer: Answer) -> DispatchedRow
    ensures { result ≡ dispatched_row_of (answer_at d dryer answer) }
{
    numbered(dispatch::enter(d, dryer, answer))
}
