// The report as one RFC 4180 record of document 01: the word next, stop or refuse, then its numbers, then CR LF.
#![tactic(auto)]

ghost use Rattle.std.specs.Prelude.{◌≡◌, ◌≤◌, length};
ghost use Rattle.printing.specs.Printed.{longest_record, record_with, record_of, placed, placed_length};

use lines::Line;
use rules::Report;

// The length of the longest record: `stop` and four numbers of ten digits.
pub const LONGEST_RECORD: usize = lines::LONGEST_LINE;

// The record of a word and numbers, which is short enough.
fn line_with(word: &[u8], numbers: &[u32]) -> Line
    requires { length (record_with word.now numbers.now) ≤ longest_record }
    ensures { result.items ≡ record_with word.now numbers.now }
{
    let mut line = Line::new();
    line.put_text(word);
    lines::put_fields(&mut line, numbers);
    line.put_text(b"\r\n");
    line
}

// The record of a report.
fn line_of(report: Report) -> Line
    ensures { result.items ≡ record_of report }
{
    match report {
        Report::Next { point, taken } => line_with(b"next", &[point, taken]),
        Report::Stop {
            lower,
            upper,
            better,
            taken,
        } => line_with(b"stop", &[lower, upper, better, taken]),
        Report::Refused { number, place } => line_with(b"refuse", &[number, place]),
    }
}

// Copies a text to the beginning of a buffer that is long enough for it, and says how many bytes were written.
pub fn place_text(text: &[u8], out: &mut [u8]) -> usize
    ensures value { result ≡ placed_length text.now out.old }
    ensures out_after { out.new ≡ placed text.now out.old }
{
    if out.len() < text.len() {
        return 0;
    }
    out[..text.len()].copy_from_slice(text);
    text.len()
}

// Writes the record of a report at the beginning of `out`, whose further bytes keep their contents, and answers its length. Where
// `out` is too short nothing is written, and the answer is 0. A buffer of LONGEST_RECORD bytes is long enough for every report.
pub fn write_report(report: Report, out: &mut [u8]) -> usize
    ensures value { result ≡ placed_length (record_of report) out.old }
    ensures out_after { out.new ≡ placed (record_of report) out.old }
    ensures report_len_bound { length (record_of report) ≤ longest_record }
{
    let line = line_of(report);
    place_text(line.as_slice(), out)
}
