// One call of a run, by either kind, and a report stored among others as the numbers of its row.
#![tactic(auto)]

ghost use Rattle.std.specs.Prelude.{◌≡◌, ◌+◌, ◌≤◌, length};
ghost use Rattle.std.proofs.lemmas.List.Edits.{sets};
ghost use Rattle.rules.specs.Rows.{row_numbers};
ghost use Rattle.held.specs.Held.{enter_of};

use held::{Entered, Search};
use rules::Row;

// An answer entered: for kind 0 by value, for any other into a search that is lent. A kind is a number, no enum: runs are lists of numbers,
// and every number is some kind.
pub fn call(kind: u8, search: Search, point: i32, value: i32) -> Entered
    ensures { result ≡ enter_of search point value }
{
    if kind == 0 {
        search.enter(point, value)
    } else {
        lent::enter_through(search, point, value)
    }
}

// The numbers of a row, one after the other from a place on.
pub fn put_row(rows: &mut [u32], at: usize, row: Row)
    requires { at + length (row_numbers row) ≤ length rows.old }
    ensures { rows.new ≡ sets rows.old at (row_numbers row) }
{
    let numbers = [
        row.kind, row.point, row.lower, row.upper, row.better, row.taken, row.number, row.place,
    ];
    rows[at..at + numbers.len()].copy_from_slice(&numbers);
}
