// A search in the host's own memory, lent to a call: an opening or an answer is entered into it. Each function takes the search apart
// and calls the step by value of crate `held` or `verdicts`; what a refusal leaves is the search as it was.
#![tactic(auto)]

ghost use Rattle.std.specs.Prelude.{◌≡◌};
ghost use Rattle.held.specs.Held.{reopen_of, enter_of};
ghost use Rattle.verdicts.specs.Judged.{verdict_of};

use held::{Entered, Search};
use rules::{Opening, Report};
use verdicts::Verdict;

// Makes the host's search a fresh one of the opening, and tells its report. A refused opening leaves it as it was.
pub fn open_into(search: &mut Search, opening: Opening) -> Report
    ensures { (result ≡ (reopen_of search.old opening).report)
        × (search.new ≡ (reopen_of search.old opening).search) }
{
    let e = (*search).reopen(opening);
    *search = e.search;
    e.report
}

// What an answer, a point and its value, does to a search.
pub fn judge(s: Search, point: i32, value: i32) -> Verdict
    ensures { result ≡ verdict_of s.opening s.count s.slots point value }
{
    verdicts::judge_parts(s.opening, s.count, &s.slots, point, value)
}

// Enters an answer into the host's search: one slot and the count are stored. A refused answer leaves them as they were.
pub fn enter_into(search: &mut Search, point: i32, value: i32) -> Report
    ensures { (result ≡ (enter_of search.old point value).report)
        × (search.new ≡ (enter_of search.old point value).search) }
{
    let v = judge(*search, point, value);
    let at = v.at;
    (*search).slots[at] = v.value;
    (*search).count = v.count;
    v.report
}

// The same with plain parameters: a search of one's own is lent, and comes back beside the report.
pub fn enter_through(search: Search, point: i32, value: i32) -> Entered
    ensures { result ≡ enter_of search point value }
{
    let mut own = search;
    let report = enter_into(&mut own, point, value);
    Entered {
        report,
        search: own,
    }
}
