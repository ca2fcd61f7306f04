// A sheet cleaned: the clean sheet of the search that a text is, or the record of its refusal.
#![tactic(auto)]

ghost use Rattle.std.specs.Prelude.{◌≡◌, true, false, ◌≤◌, length};
ghost use Rattle.rules.specs.Search.{is_refusal};
ghost use Rattle.printing.specs.Printed.{record_of, longest_record, placed, placed_length};
ghost use Rattle.outcomes.specs.Sheet.{sheet_of};
ghost use Rattle.clean_sheets.specs.Clean.{longest_sheet, rewritten_of};
ghost use Rattle.clean_sheets.specs.Claims.{Rewritten};
ghost use Rattle.cleaning.specs.Cleaned.{outcome_length, outcome_left};

use held::Entered;

// Writes an outcome at the beginning of `out`, whose further bytes keep their contents, and answers its length: of a refusal the record that
// tells it, otherwise the clean sheet of the search. Where `out` is too short, or the search is refused for all that its report says, nothing is
// written, and the answer is 0.
pub fn write_outcome(e: Entered, out: &mut [u8]) -> usize
    ensures value { result ≡ outcome_length e out.old }
    ensures out_after { out.new ≡ outcome_left e out.old }
    ensures report_len_bound { is_refusal e.report ≡ true → length (record_of e.report) ≤ longest_record }
{
    let report = e.report;
    if refusals::is_refusal(report) {
        return printing::write_report(report, out);
    }
    let search = e.search;
    match writing::write_sheet(search, out) {
        Ok(length) => length as usize,
        Err(_) => 0,
    }
}

// Writes the clean sheet of a text of any length at the beginning of `out`, whose further bytes keep their contents, and answers its length;
// for a text that is refused the record that tells the refusal. Where `out` is too short nothing is written, and the answer is 0. A buffer
// of clean_sheets::LONGEST_SHEET bytes is long enough for every text. Of every text that is not refused the claim on sheets cleaned holds.
pub fn clean_sheet(text: &[u8], out: &mut [u8]) -> usize
    ensures value { result ≡ placed_length (rewritten_of text.now) out.old }
    ensures out_after { out.new ≡ placed (rewritten_of text.now) out.old }
    ensures text_len_bound { length (rewritten_of text.now) ≤ longest_sheet }
    ensures rewritten { is_refusal (sheet_of text.now).report ≡ false → Rewritten text.now }
{
    let e = sheet::read_sheet(text);
    write_outcome(e, out)
}
