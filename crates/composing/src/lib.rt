// A clean sheet composed in a buffer, of an opening and accepted values. An inner crate: its callers see that the values are accepted and
// that there is room.
#![tactic(auto)]

ghost use Rattle.std.specs.Prelude.{◌≡◌, false, ◌+◌, ◌≤◌, length};
ghost use Rattle.rules.specs.Search.{is_refused, begin_of, progress_of};
ghost use Rattle.clean_sheets.specs.Clean.{with_points, answers_text, sheet_text};
ghost use Rattle.sheet_text.specs.Pieces.{Puts};
ghost use Rattle.composing.specs.SoFar.{called_by};

use rules::{Opening, Report};

// The point that a report calls for; of a stop and of a refusal none is asked.
fn called_by(report: Report) -> u32
    ensures { result ≡ called_by report }
{
    if let Report::Next { point, .. } = report {
        point
    } else {
        0
    }
}

// The records of accepted values from the place `at` of the buffer on, and the place behind them. Each has the point that the search over
// the values before it calls for.
fn answers_into(o: Opening, values: &[i32], out: &mut [u8], at: usize) -> usize
    requires { (is_refused (progress_of o values.now) ≡ false)
        × (at + length (answers_text (with_points o (begin_of o) values.now)) ≤ length out.old) }
    ensures { Puts out.old at (answers_text (with_points o (begin_of o) values.now)) out.new result }
{
    let mut end = at;
    for (i, value) in values.iter().enumerate() {
        let report = search::report_on(o, &values[..i]);
        end = sheet_text::put_answer(out, end, called_by(report), *value);
    }
    end
}

// The clean sheet of an opening and accepted values at the beginning of a buffer that is long enough for it, and its length.
pub fn compose(o: Opening, values: &[i32], out: &mut [u8]) -> usize
    requires { (is_refused (progress_of o values.now) ≡ false)
        × (length (sheet_text o (with_points o (begin_of o) values.now)) ≤ length out.old) }
    ensures { Puts out.old 0 (sheet_text o (with_points o (begin_of o) values.now)) out.new result }
{
    let at = sheet_text::put_opening(out, 0, o);
    answers_into(o, values, out, at)
}
