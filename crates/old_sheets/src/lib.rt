// Old sheets, which were asked with M for the house default: one is read with 0 as M, and written clean with method 1 in place of 0.
#![tactic(auto)]

ghost use Rattle.std.specs.Prelude.{◌≡◌, false, ◌≤◌, length};
ghost use Rattle.rules.specs.Search.{is_refusal};
ghost use Rattle.printing.specs.Printed.{placed, placed_length};
ghost use Rattle.clean_sheets.specs.Clean.{longest_sheet};
ghost use Rattle.changeover.specs.Changeover.{old_default, sheet_under, changed_sheet};
ghost use Rattle.changeover.specs.Claims.{Under, ChangedSheet, RefusedBefore};

use held::Entered;

// The outcome of a text of any length, read with 0 as M: its report, and the held search that it is, whose method is 1 in place of 0. The claim
// on such readings holds.
pub fn read_old_sheet(text: &[u8]) -> Entered
    ensures value { result ≡ sheet_under old_default text.now }
    ensures under { Under }
{
    let mut e = records::read_records(text);
    e.opening = changing::under_old_default(e.opening);
    settled::judge(e)
}

// Writes the clean sheet of an old sheet of any length, with method 1 in place of 0, at the beginning of `out`, whose further bytes keep their
// contents, and answers its length; for a text that the old reading refuses the record that tells the refusal. Where `out` is too short
// nothing is written, and the answer is 0. A buffer of clean_sheets::LONGEST_SHEET bytes is long enough for every text. Of every text that
// the old reading does not refuse the claim on sheets changed over holds, and of every other the claim on what it refuses.
pub fn change_sheet(text: &[u8], out: &mut [u8]) -> usize
    ensures value { result ≡ placed_length (changed_sheet text.now) out.old }
    ensures out_after { out.new ≡ placed (changed_sheet text.now) out.old }
    ensures text_len_bound { length (changed_sheet text.now) ≤ longest_sheet }
    ensures claimed { is_refusal (sheet_under old_default text.now).report ≡ false → ChangedSheet text.now }
    ensures refused_before { RefusedBefore }
{
    let e = read_old_sheet(text);
    cleaning::write_outcome(e, out)
}
