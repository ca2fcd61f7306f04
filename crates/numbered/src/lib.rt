// The calls on a search with the report in plain numbers, by value: what the interface for C does to the host's own search; and the trial load.
#![tactic(auto)]

ghost use Rattle.std.specs.Prelude.{◌≡◌};
ghost use Rattle.rules.specs.Rows.{row_of};
ghost use Rattle.held.specs.Held.{reopen_of, held_report};
ghost use Rattle.verdicts.specs.Judged.{verdict_of};
ghost use Rattle.numbered.specs.Numbered.{answered_of};
ghost use Rattle.clean_sheets.specs.Clean.{written_of, buffer_of, written_row_of};
ghost use Rattle.changeover.specs.Changeover.{changed_search};
ghost use Rattle.loading.specs.Loading.{load_of};
ghost use Rattle.numbered.specs.Inner.{numbered_of};

use clean_sheets::WrittenRow;
use held::{Entered, Search};
use rules::{Opening, Refusal, Row};

// A report as plain numbers, and beside it the search as it then is.
#[repr(C)]
#[derive(Clone, Copy)]
pub struct Answered {
    pub report: Row,
    pub search: Search,
}

// What an answer does to a search, with the report as plain numbers: the count that the search then has, and the value of one slot.
#[derive(Clone, Copy)]
pub struct NumberedVerdict {
    pub report: Row,
    pub count: u32,
    pub at: usize,
    pub value: i32,
}

// A report as plain numbers, beside its search.
fn in_numbers(e: Entered) -> Answered
    ensures { result ≡ answered_of e }
{
    let report = e.report;
    let search = e.search;
    Answered {
        report: rows::row_of(report),
        search,
    }
}

// A fresh search of an opening in a search's place.
pub fn step_open(search: Search, opening: Opening) -> Answered
    ensures { result ≡ answered_of (reopen_of search opening) }
{
    in_numbers(search.reopen(opening))
}

// What an answer does to a search.
pub fn step_enter(search: Search, point: i32, value: i32) -> NumberedVerdict
    ensures { result ≡ numbered_of (verdict_of search.opening search.count search.slots point value) }
{
    let v = lent::judge(search, point, value);
    let report = v.report;
    NumberedVerdict {
        report: rows::row_of(report),
        count: v.count,
        at: v.at,
        value: v.value,
    }
}

// The report of a search.
pub fn step_ask(search: Search) -> Row
    ensures { result ≡ row_of (held_report search) }
{
    rows::row_of(search.report())
}

// A search that was asked with M for the house default, changed over.
pub fn step_change(search: Search) -> Answered
    ensures { result ≡ answered_of (changed_search search) }
{
    in_numbers(changing::change_search(search))
}

// The trial load of a seed, or the refusal of what is no seed.
pub fn step_load(seed: u32) -> Answered
    ensures { result ≡ answered_of (load_of seed) }
{
    in_numbers(load::load(seed))
}

// Writes the clean sheet of a search into a buffer, or refuses that.
pub fn step_write(search: Search, out: &mut [u8]) -> WrittenRow
    ensures { (result ≡ written_row_of (written_of search out.old)) × (out.new ≡ buffer_of search out.old) }
{
    match writing::write_sheet(search, out) {
        Ok(length) => WrittenRow {
            kind: rules::WRITTEN_KIND,
            length,
            number: 0,
            place: 0,
        },
        Err(Refusal { number, place }) => WrittenRow {
            kind: rules::REFUSED_KIND,
            length: 0,
            number,
            place,
        },
    }
}
