// Trial sheets: the outcome of a text, what is told of it in short, and its report as bytes.
#![tactic(auto)]

ghost use Rattle.std.specs.Prelude.{◌≡◌};
ghost use Rattle.printing.specs.Printed.{record_of, placed, placed_length};
ghost use Rattle.forms.specs.Entries.{entries_of};
ghost use Rattle.outcomes.specs.Sheet.{sheet_of};

use held::Entered;
use rules::{Opening, Refusal, Report};

// What is told of a text in short: whether it is read, the opening that is read, every number 0 where none is, and the report.
#[derive(Clone, Copy)]
pub struct Brief {
    pub form: Result<(), Refusal>,
    pub opening: Opening,
    pub report: Report,
}

// The outcome of a text of any length: its report, and the held search that it is.
pub fn read_sheet(text: &[u8]) -> Entered
    ensures { result ≡ sheet_of text.now }
{
    let e = records::read_records(text);
    settled::judge(e)
}

// The same in short, without the search. What the interface for C asks of a sheet goes through here: the reader has one caller there, and the
// compiler puts it in line.
pub fn brief_of(text: &[u8]) -> Brief
    ensures { (result.form ≡ (entries_of text.now).form) × (result.opening ≡ (entries_of text.now).opening)
        × (result.report ≡ (sheet_of text.now).report) }
{
    let read = records::read_records(text);
    let outcome = settled::judge(read);
    let form = read.form;
    let opening = read.opening;
    let report = outcome.report;
    Brief {
        form,
        opening,
        report,
    }
}

// The outcome of a text as a record's bytes, written at the beginning of `out`, and their number; `out` too short is left alone, and
// the answer is 0.
pub fn answer_sheet(text: &[u8], out: &mut [u8]) -> usize
    ensures value { result ≡ placed_length (record_of (sheet_of text.now).report) out.old }
    ensures out_after { out.new ≡ placed (record_of (sheet_of text.now).report) out.old }
{
    let e = read_sheet(text);
    let report = e.report;
    printing::write_report(report, out)
}
