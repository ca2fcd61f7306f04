// Held searches: a search that keeps its own list of values.
#![tactic(auto)]

ghost use Rattle.std.specs.Prelude.{◌≡◌};
ghost use Rattle.held.specs.Held.{fresh_of, blank, reopen_of, open_of, held_report, enter_of};

use rules::{Opening, Report};

// An opening, the number of answers taken, and their values in the first slots.
#[repr(C)]
#[derive(Clone, Copy)]
pub struct Search {
    pub opening: Opening,
    pub count: u32,
    pub slots: [i32; rules::SLOTS],
}

// A report, and beside it the search as it then is.
#[derive(Clone, Copy)]
pub struct Entered {
    pub report: Report,
    pub search: Search,
}

// A search of an opening with no answer.
fn unanswered(opening: Opening) -> Search
    ensures { result ≡ fresh_of opening }
{
    Search {
        opening,
        count: 0,
        slots: [0; rules::SLOTS],
    }
}

impl Search {
    // The limits: of a point, of the tolerance, of the share, of a value above and below 0, and of the answers kept.
    pub const HIGHEST: u32 = rules::HIGHEST;

    pub const LARGEST_TOLERANCE: u32 = rules::LARGEST_TOLERANCE;

    pub const LARGEST_SHARE: u32 = rules::LARGEST_SHARE;

    pub const LARGEST_VALUE: u32 = rules::LARGEST_VALUE;

    pub const SLOTS: usize = rules::SLOTS;

    // A fresh search of an opening in this one's place, and its report. A refused opening makes none: this search stays as it is.
    pub fn reopen(self, opening: Opening) -> Entered
        ensures { result ≡ reopen_of self opening }
    {
        let fresh = unanswered(opening);
        if let Some(number) = refusals::opening_refusal(opening) {
            return Entered {
                report: Report::Refused { number, place: 0 },
                search: self,
            };
        }
        let point = opening.first.unsigned_abs();
        Entered {
            report: Report::Next { point, taken: 0 },
            search: fresh,
        }
    }

    // What stands beside a refusal where there was no search: every number is 0, and every call refuses it.
    pub fn blank() -> Search
        ensures { result ≡ blank }
    {
        let nothing = Opening {
            method: 0,
            first: 0,
            second: 0,
            tolerance: 0,
            share: 0,
        };
        unanswered(nothing)
    }

    // A fresh search and its report. A refused opening makes none: beside its refusal stands a blank.
    pub fn fresh(opening: Opening) -> Entered
        ensures { result ≡ open_of opening }
    {
        let none = Search::blank();
        none.reopen(opening)
    }

    // The report of the search as it stands.
    pub fn report(self) -> Report
        ensures { result ≡ held_report self }
    {
        let none: [i32; 0] = [];
        verdicts::told(self.opening, self.count, &self.slots, &none, &none)
    }

    // An answer, a point and its value, is entered or refused.
    pub fn enter(self, point: i32, value: i32) -> Entered
        ensures { result ≡ enter_of self point value }
    {
        let mut next = self;
        let v = verdicts::judge_parts(next.opening, next.count, &next.slots, point, value);
        let report = v.report;
        let at = v.at;
        let kept = v.value;
        next.slots[at] = kept;
        next.count = v.count;
        Entered {
            report,
            search: next,
        }
    }
}
