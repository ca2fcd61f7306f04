// The steps of a run written down in lists: how many calls there are, and the call at a place, with its report in its place among the rows.
#![tactic(auto)]

ghost use Rattle.std.specs.Prelude.{◌≡◌};
ghost use Rattle.runs.specs.Listed.{shortest, Before, CallMade};

use held::Search;

// The numbers that a report is written as: those of a row.
pub const NUMBERS_EACH: usize = 8;

// How many calls there are: as far as all three lists go, and as far as there is room for the rows.
pub fn number_of_calls(kinds: &[u8], points: &[i32], values: &[i32], rows: &[u32]) -> usize
    ensures { result ≡ shortest kinds.now points.now values.now rows.now }
{
    let room = rows.len() / NUMBERS_EACH;
    room.min(kinds.len()).min(points.len()).min(values.len())
}

// The call at a place of the lists, and its report in its place among the rows.
pub fn call_at(
    i: usize,
    search: Search,
    kinds: &[u8],
    points: &[i32],
    values: &[i32],
    rows: &mut [u32],
) -> Search
    requires { Before i kinds.now points.now values.now rows.old }
    ensures { CallMade i search points.now values.now rows.old result rows.new }
{
    let next = calls::call(kinds[i], search, points[i], values[i]);
    calls::put_row(rows, NUMBERS_EACH * i, rows::row_of(next.report));
    next.search
}
