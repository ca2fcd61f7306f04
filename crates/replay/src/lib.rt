// A run of calls of both kinds, made for real: what they report and the search that they leave are those of the claim about whole runs.
#![tactic(auto)]

ghost use Rattle.replay.specs.Replay.{Replays};
ghost use Rattle.replay.specs.Calls.{CallsMade};

use held::Search;
use rules::{Opening, Report};

// The numbers that a report is written as: those of a row.
pub const NUMBERS_EACH: usize = runs::NUMBERS_EACH;

// What a run tells: of the opening, its first point or its refusal; and the search after the calls.
#[derive(Clone, Copy)]
pub struct Replayed {
    pub opened: Report,
    pub search: Search,
}

// Each call in turn, to the search that the one before returned or left.
fn make_calls(
    begun: Search,
    kinds: &[u8],
    points: &[i32],
    values: &[i32],
    rows: &mut [u32],
) -> Search
    ensures { CallsMade begun kinds.now points.now values.now rows.old result rows.new }
{
    let n = runs::number_of_calls(kinds, points, values, rows);
    let mut search = begun;
    for i in 0..n {
        search = runs::call_at(i, search, kinds, points, values, rows);
    }
    search
}

// A fresh search of the opening, and then as many calls as the shortest of kinds, points and values allows: kind 0 by value, any other
// into the search. The numbers of each report are written to `rows` in turn; a short `rows` ends the run early, before the first call
// whose report has no room, and its further numbers keep their contents.
// A refused opening makes no fresh search: its refusal is told beside a blank, no call is made, and `rows` keeps its contents.
pub fn replay(
    opening: Opening,
    kinds: &[u8],
    points: &[i32],
    values: &[i32],
    rows: &mut [u32],
) -> Replayed
    ensures { Replays opening kinds.now points.now values.now rows.old result rows.new }
{
    let begun = Search::fresh(opening);
    let opened = begun.report;
    let fresh = begun.search;
    if refusals::is_refusal(opened) {
        return Replayed {
            opened,
            search: fresh,
        };
    }
    let search = make_calls(fresh, kinds, points, values, rows);
    Replayed { opened, search }
}
