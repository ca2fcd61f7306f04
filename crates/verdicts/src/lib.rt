// Verdicts: what an answer does to a search, over the parts of the search. An inner crate, which knows no search as a whole: it is lent
// the slots, and its callers store what changes.
#![tactic(auto)]

ghost use Rattle.std.specs.Prelude.{◌≡◌, length};
ghost use Rattle.rules.specs.Rules.{slots};
ghost use Rattle.rules.specs.Search.{answers_of, report_at};
ghost use Rattle.verdicts.specs.Judged.{standing_by, verdict_of};

use rules::{Opening, Report};

// What an answer does to a search: the report, the count that it then has, and the value that a slot then has.
#[derive(Clone, Copy)]
pub struct Verdict {
    pub report: Report,
    pub count: u32,
    pub at: usize,
    pub value: i32,
}

// The report on a held search's parts, with further answers after the values held: the count is checked, then the opening, then the
// values and the answers.
pub fn told(opening: Opening, count: u32, held: &[i32], points: &[i32], values: &[i32]) -> Report
    requires { (length held.now ≡ slots) × (length points.now ≡ length values.now) }
    ensures { result ≡ report_at opening
        (answers_of opening (standing_by opening count held.now) points.now values.now) }
{
    if rules::SLOTS < count as usize {
        return Report::Refused {
            number: rules::COUNT_ABOVE,
            place: 0,
        };
    }
    let n = count as usize;
    walk::follow(opening, &held[..n], points, values)
}

// What an answer, a point and its value, does to a search of these parts: it is entered, or refused and all stays as it is.
pub fn judge_parts(
    opening: Opening,
    count: u32,
    slots: &[i32; rules::SLOTS],
    point: i32,
    value: i32,
) -> Verdict
    ensures { result ≡ verdict_of opening count slots.now point value }
{
    let points = [point];
    let values = [value];
    let report = told(opening, count, slots, &points, &values);
    if refusals::is_refusal(report) {
        return Verdict {
            report,
            count,
            at: 0,
            value: slots[0],
        };
    }
    Verdict {
        report,
        count: count + 1,
        at: count as usize,
        value,
    }
}
