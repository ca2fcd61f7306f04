// The outcome of what a sheet was read as, by value: a refusal, or the report on the answers beside the held search that the sheet is.
#![tactic(auto)]

ghost use Rattle.std.specs.Prelude.{◌≡◌, ◌≤◌, length, take};
ghost use Rattle.rules.specs.Rules.{slots};
ghost use Rattle.rules.specs.Refusals.{opening_refusal};
ghost use Rattle.rules.specs.Search.{answers_of, report_at};
ghost use Rattle.rules.specs.declared.Progress.TheVariants.{Begun};
ghost use Rattle.outcomes.specs.Sheet.{refused_at, judged};
ghost use Rattle.outcomes.proofs.SheetLaws.{settled_by, Below};

use forms::Entries;
use held::{Entered, Search};
use rules::{Opening, Report};

// A refusal, and beside it a blank.
fn refuse(number: u32, place: u32) -> Entered
    ensures { result ≡ refused_at number place }
{
    Entered {
        report: Report::Refused { number, place },
        search: Search::blank(),
    }
}

// The report on the answers up to the count, each with its point, of an opening that is accepted.
fn told<'a>(opening: Opening, count: u32, points: &'a [i32], values: &'a [i32]) -> Report
    requires { (opening_refusal opening ≡ 0) × (count ≤ length points.now) × (length points.now ≡ length values.now) }
    ensures { result ≡ report_at opening (answers_of opening Begun (take count points.now) (take count values.now)) }
{
    let n = count as usize;
    walk::follow(opening, &values[..0], &points[..n], &values[..n])
}

// The outcome, by the report on the answers: a refusal, or the report beside the held search that the sheet is.
fn settle(e: Entries, report: Report) -> Entered
    requires { (Below e.count report) × (e.count ≤ slots) }
    ensures { result ≡ settled_by e report }
{
    if let Report::Refused { number, place } = report {
        return refuse(number, place + 2);
    }
    let opening = e.opening;
    let slots = e.values;
    Entered {
        report,
        search: Search {
            opening,
            count: e.count,
            slots,
        },
    }
}

// The outcome of what a text was read as: the refusal of its form, or the outcome of its records.
pub fn judge(e: Entries) -> Entered
    requires { e.count ≤ slots }
    ensures { result ≡ judged e e.form }
{
    if let Err(refusal) = e.form {
        return refuse(refusal.number, refusal.place);
    }
    if let Some(number) = refusals::opening_refusal(e.opening) {
        return refuse(number, 1);
    }
    let report = told(e.opening, e.count, &e.points, &e.values);
    settle(e, report)
}
