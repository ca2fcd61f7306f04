// The sheet written back: the clean sheet of a held search, in a lent buffer.
#![tactic(auto)]

ghost use Rattle.std.specs.Prelude.{◌≡◌, false, ◌≤◌, length, take};
ghost use Rattle.rules.specs.Search.{is_refused, is_refusal, begin_of, progress_of};
ghost use Rattle.held.specs.Held.{held_report};
ghost use Rattle.printing.specs.Printed.{placed};
ghost use Rattle.clean_sheets.specs.Clean.{with_points, sheet_text, fitted_in, written_of, buffer_of};
ghost use Rattle.clean_sheets.specs.Claims.{CleanSheet};

use held::Search;
use rules::{Opening, Refusal, Report};

// The clean sheet of an accepted search's parts, where the buffer is long enough.
fn write_accepted(o: Opening, count: u32, slots: &[i32], out: &mut [u8]) -> Result<u32, Refusal>
    requires { (count ≤ length slots.now) × (is_refused (progress_of o (take count slots.now)) ≡ false) }
    ensures value { result ≡ fitted_in out.old (sheet_text o (with_points o (begin_of o) (take count slots.now))) }
    ensures out_after { out.new ≡ placed (sheet_text o (with_points o (begin_of o) (take count slots.now))) out.old }
{
    let mut sheet = [0u8; clean_sheets::LONGEST_SHEET];
    let n = count as usize;
    let length = composing::compose(o, &slots[..n], &mut sheet);
    if out.len() < length {
        return Err(Refusal {
            number: rules::BUFFER_TOO_SHORT,
            place: 0,
        });
    }
    let written = printing::place_text(&sheet[..length], out);
    Ok(written as u32)
}

// Writes the clean sheet of a search at the beginning of `out`, whose further bytes keep their contents, and tells its length. The
// search's own refusal comes first, then 13 where `out` is shorter than the sheet; nothing is written then. A buffer of
// clean_sheets::LONGEST_SHEET bytes is long enough for every search. Of every search that is not refused the claim on clean sheets holds.
pub fn write_sheet(search: Search, out: &mut [u8]) -> Result<u32, Refusal>
    ensures value { result ≡ written_of search out.old }
    ensures out_after { out.new ≡ buffer_of search out.old }
    ensures clean_sheet { is_refusal (held_report search) ≡ false → CleanSheet search }
{
    let report = search.report();
    if let Report::Refused { number, place } = report {
        return Err(Refusal { number, place });
    }
    write_accepted(search.opening, search.count, &search.slots, out)
}
