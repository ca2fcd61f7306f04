// The outcome of a trial sheet as the four numbers of a season's run.
#![tactic(auto)]

ghost use Rattle.std.specs.Prelude.{◌≡◌};
ghost use Rattle.rules.specs.Search.{quote_of};
ghost use Rattle.forms.specs.Entries.{entries_of};
ghost use Rattle.seasons.specs.Sheets.{method_number, method_written, most_quoted, sheet_outcome};
ghost use Rattle.seasons.specs.Claims.{EverySheet};
ghost use Rattle.sheet_outcomes.specs.HasOpening.{has_opening};

use rules::{Opening, Refusal, Report};
use seasons::Outcome;

// 0, 1 and 2 as they are, and 3 for any other number.
#[tactic(auto, unfolding(seasons::specs::Sheets::method_number))]
fn method_number(method: i32) -> u16
    ensures { result ≡ method_number method }
{
    if refusals::beyond(0, 2, method) {
        return seasons::OTHER;
    }
    method.unsigned_abs() as u16
}

// Whether the first record of a text of this form is an opening: a text is refused for its length at place 0, and for its first record at 1.
fn has_opening(form: Result<(), Refusal>) -> bool
    ensures { result ≡ has_opening form }
{
    match form {
        Ok(()) => true,
        Err(refusal) => 1 < refusal.place,
    }
}

// The method that the first record of a text carries, or 3. Out of line, so that what it scans takes no stack while the reader runs: the
// interface for C promises a limit.
#[inline(never)]
fn method_written(text: &[u8], form: Result<(), Refusal>) -> u16
    requires { form ≡ (entries_of text.now).form }
    ensures { result ≡ method_written text.now }
{
    if !has_opening(form) {
        return seasons::OTHER;
    }
    match fields::scan_pair(text, 0, false) {
        Some(head) => method_number(head.value.0),
        None => seasons::OTHER,
    }
}

// The most answers quoted for an opening; 0 where it is refused.
fn most_quoted(opening: Opening) -> u16
    ensures { result ≡ most_quoted (quote_of opening) }
{
    match search::quote(opening) {
        Ok(quote) => quote.most as u16,
        Err(_) => 0,
    }
}

// The outcome of a text of any length: stopped, unfinished or refused, the method as written, the answers taken and the most quoted. The claim
// on every sheet holds.
pub fn sheet_outcome(text: &[u8]) -> Outcome
    ensures value { result ≡ sheet_outcome text.now }
    ensures every_sheet { EverySheet }
{
    let brief = sheet::brief_of(text);
    let form = brief.form;
    let method = method_written(text, form);
    let quoted = most_quoted(brief.opening);
    let report = brief.report;
    match report {
        Report::Stop {
            lower: _,
            upper: _,
            better: _,
            taken,
        } => Outcome {
            kind: seasons::STOPPED,
            method,
            answers: taken as u16,
            quoted,
        },
        Report::Next { point: _, taken } => Outcome {
            kind: seasons::UNFINISHED,
            method,
            answers: taken as u16,
            quoted,
        },
        Report::Refused {
            number: _,
            place: _,
        } => Outcome {
            kind: seasons::REFUSED,
            method,
            answers: 0,
            quoted: 0,
        },
    }
}
