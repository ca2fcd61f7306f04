// A run of calls to a dispatcher, written down in lists and made for real: what the calls report and the dispatcher that they leave are those
// of the claim about whole runs.
#![tactic(auto)]

ghost use Rattle.dispatch_runs.specs.Runs.{DispatcherRuns};

use dispatching::Dispatcher;

// The numbers that a report is written as: those of a row.
pub const NUMBERS_EACH: usize = dispatch_calls::NUMBERS_EACH;

// As many calls as the shortest of kinds, dryers and numbers allows, five numbers to each call: an opening's method, first end, second end,
// tolerance and share, or an answer's point and value and three that are not read. Each gets the dispatcher as the one before left it. The
// numbers of each report are written to `rows` in turn; a short `rows` ends the run early, before the first call whose report has no room, and
// its further numbers keep their contents.
pub fn make_calls(
    d: Dispatcher,
    kinds: &[u8],
    dryers: &[u32],
    numbers: &[i32],
    rows: &mut [u32],
) -> Dispatcher
    ensures { DispatcherRuns d kinds.now dryers.now numbers.now rows.old result rows.new }
{
    let n = dispatch_calls::number_of_calls(kinds, dryers, numbers, rows);
    let mut next = d;
    for i in 0..n {
        next = dispatch_calls::call_at(i, next, kinds, dryers, numbers, rows);
    }
    next
}
