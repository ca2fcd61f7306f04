// The interface for a dryer's controller, exported for C: see include/busdekker.h. Nothing is asked of the caller: what is out of range is
// refused, and a refusal leaves what was lent as it was.
#![tactic(auto)]

ghost use Rattle.std.specs.Prelude.{◌≡◌, length};
ghost use Rattle.rules.specs.Rows.{row_of, quotation_of};
ghost use Rattle.rules.specs.Search.{report_of, quote_of};
ghost use Rattle.held.specs.Held.{reopen_of, held_report, enter_of};
ghost use Rattle.outcomes.specs.Sheet.{sheet_of};
ghost use Rattle.clean_sheets.specs.Clean.{written_of, buffer_of, written_row_of};
ghost use Rattle.changeover.specs.Changeover.{changed_search};
ghost use Rattle.loading.specs.Loading.{next_draw, load_of};
ghost use Rattle.numbered.specs.Numbered.{answered_of};
ghost use Rattle.registers.specs.Exchange.{exchanged_of, reply_buffer};
ghost use Rattle.panel_numbers.specs.Numbers.{replied_row_of};
ghost use Rattle.dispatching.specs.Dispatching.{fresh_dispatcher, turn_of, opening_at, answer_at, dryer_report};
ghost use Rattle.dispatch_numbers.specs.Numbers.{turn_number};
ghost use Rattle.seasons.specs.Season.{season_of, season_row_of};
ghost use Rattle.seasons.specs.Sheets.{sheet_outcome};
ghost use Rattle.surveying.specs.Survey.{surveyed_of, list_of, surveyed_row_of};
ghost use Rattle.busdekker.specs.Interface.{version};

use clean_sheets::WrittenRow;
use dispatching::Dispatcher;
use held::Search;
use numbered::Answered;
use rules::{Answer, Opening, Quotation, Row};
use seasons::{Outcome, SeasonRow};
use surveying::SurveyedRow;

// The version of this interface.
#[unsafe(no_mangle)]
pub extern "C" fn busdekker_version() -> u32
    ensures { result ≡ version }
{
    11
}

// t and the most answers that an opening may need.
#[unsafe(no_mangle)]
pub extern "C" fn busdekker_quote(opening: Opening) -> Quotation
    ensures { result ≡ quotation_of (quote_of opening) }
{
    asked::quotation(opening)
}

// Makes the host's search a fresh one of the opening, or refuses that.
#[unsafe(no_mangle)]
pub extern "C" fn busdekker_open(search: &mut Search, opening: Opening) -> Row
    ensures { (result ≡ row_of (reopen_of search.old opening).report)
        × (search.new ≡ (reopen_of search.old opening).search) }
{
    let e = numbered::step_open(*search, opening);
    *search = e.search;
    e.report
}

// Enters an answer into the host's search, or refuses it.
#[unsafe(no_mangle)]
pub extern "C" fn busdekker_enter(search: &mut Search, point: i32, value: i32) -> Row
    ensures { (result ≡ row_of (enter_of search.old point value).report)
        × (search.new ≡ (enter_of search.old point value).search) }
{
    let w = numbered::step_enter(*search, point, value);
    let at = w.at;
    (*search).slots[at] = w.value;
    (*search).count = w.count;
    w.report
}

// Enters an answer into a search that is passed by value: the report, and the search as it then is.
#[unsafe(no_mangle)]
pub extern "C" fn busdekker_entered(held: Search, point: i32, value: i32) -> Answered
    ensures { result ≡ answered_of (enter_of held point value) }
{
    let mut search = held;
    let v = verdicts::judge_parts(search.opening, search.count, &search.slots, point, value);
    let report = v.report;
    let at = v.at;
    let kept = v.value;
    search.slots[at] = kept;
    search.count = v.count;
    Answered {
        report: rows::row_of(report),
        search,
    }
}

// The report of the host's search as it stands.
#[unsafe(no_mangle)]
pub extern "C" fn busdekker_ask(search: &Search) -> Row
    ensures { result ≡ row_of (held_report search.now) }
{
    numbered::step_ask(*search)
}

// The report on an opening and a list of values, of any length.
#[unsafe(no_mangle)]
pub extern "C" fn busdekker_values(opening: Opening, values: &[i32]) -> Row
    ensures { result ≡ row_of (report_of opening values.now) }
{
    asked::values_row(opening, values)
}

// The report on a trial sheet; the place of a refusal is a record.
#[unsafe(no_mangle)]
pub extern "C" fn busdekker_sheet(text: &[u8]) -> Row
    ensures { result ≡ row_of (sheet_of text.now).report }
{
    asked::sheet_row(text)
}

// The outcome of a trial sheet as the four numbers of a season's run.
#[unsafe(no_mangle)]
pub extern "C" fn busdekker_sheet_outcome(text: &[u8]) -> Outcome
    ensures { result ≡ sheet_outcome text.now }
{
    sheet_outcomes::sheet_outcome(text)
}

// The season report on a run of outcomes, four numbers each.
#[unsafe(no_mangle)]
pub extern "C" fn busdekker_season(numbers: &[u16]) -> SeasonRow
    ensures { result ≡ season_row_of (season_of numbers.now) }
{
    asked::season_row(numbers)
}

// Writes the clean sheet of the host's search into the buffer lent, or refuses that.
#[unsafe(no_mangle)]
pub extern "C" fn busdekker_write(search: &Search, out: &mut [u8]) -> WrittenRow
    ensures { (result ≡ written_row_of (written_of search.now out.old))
        × (out.new ≡ buffer_of search.now out.old) }
{
    numbered::step_write(*search, out)
}

// Changes the host's search over, which was asked with M for the house default, or refuses that.
#[unsafe(no_mangle)]
pub extern "C" fn busdekker_change_over(search: &mut Search) -> Row
    ensures { (result ≡ row_of (changed_search search.old).report) × (search.new ≡ (changed_search search.old).search) }
{
    let e = numbered::step_change(*search);
    *search = e.search;
    e.report
}

// Answers a panel's request from the host's search, into the buffer lent, or refuses that.
#[unsafe(no_mangle)]
pub extern "C" fn busdekker_panel(
    search: &mut Search,
    request: &[u8],
    reply: &mut [u8],
) -> WrittenRow
    ensures { (result ≡ replied_row_of (exchanged_of search.old request.now reply.old).replied)
        × (search.new ≡ (exchanged_of search.old request.now reply.old).search)
        × (reply.new ≡ reply_buffer search.old request.now reply.old) }
{
    let e = panel_numbers::step_panel(*search, request, reply);
    *search = e.search;
    e.replied
}

// The trial load of a seed and its report, or the refusal of what is no seed.
#[unsafe(no_mangle)]
pub extern "C" fn busdekker_load(seed: u32) -> Answered
    ensures { result ≡ answered_of (load_of seed) }
{
    numbered::step_load(seed)
}

// The draw after this one, or the first one after a seed.
#[unsafe(no_mangle)]
pub extern "C" fn busdekker_draw(last: u32) -> u32
    ensures { result ≡ next_draw last }
{
    load::next_draw(last)
}

// Writes the lower points of the pairs that a survey of the range finds to the list lent, or refuses that.
#[unsafe(no_mangle)]
pub extern "C" fn busdekker_survey(
    lowest: i32,
    pitch: i32,
    values: &[i32],
    list: &mut [u32],
) -> SurveyedRow
    ensures { (result ≡ surveyed_row_of (surveyed_of lowest pitch values.now (length list.old)))
        × (list.new ≡ list_of lowest pitch values.now list.old) }
{
    asked::survey_row(lowest, pitch, values, list)
}

// A fresh dispatcher: no search, none served and every count 0.
#[unsafe(no_mangle)]
pub extern "C" fn busdekker_dispatch_fresh() -> Dispatcher
    ensures { result ≡ fresh_dispatcher }
{
    dispatch::fresh()
}

// The dryer that has the turn at the host's dispatcher, or 6 where nobody has it.
#[unsafe(no_mangle)]
pub extern "C" fn busdekker_dispatch_turn(dispatcher: &Dispatcher) -> u32
    ensures { result ≡ turn_number (turn_of dispatcher.now) }
{
    dispatch_numbers::step_turn(*dispatcher)
}

// Makes the search at a dryer of the host's dispatcher a fresh one of the opening, or refuses that.
#[unsafe(no_mangle)]
pub extern "C" fn busdekker_dispatch_open(
    dispatcher: &mut Dispatcher,
    dryer: u32,
    opening: Opening,
) -> Row
    ensures { (result ≡ row_of (opening_at dispatcher.old dryer opening).report)
        × (dispatcher.new ≡ (opening_at dispatcher.old dryer opening).dispatcher) }
{
    let e = dispatch_numbers::step_open(*dispatcher, dryer, opening);
    *dispatcher = e.dispatcher;
    e.report
}

// Enters an answer into the search at a dryer of the host's dispatcher, or refuses it.
#[unsafe(no_mangle)]
pub extern "C" fn busdekker_dispatch_enter(
    dispatcher: &mut Dispatcher,
    dryer: u32,
    answer: Answer,
) -> Row
    ensures { (result ≡ row_of (answer_at dispatcher.old dryer answer).report)
        × (dispatcher.new ≡ (answer_at dispatcher.old dryer answer).dispatcher) }
{
    let e = dispatch::enter(*dispatcher, dryer, answer);
    *dispatcher = e.dispatcher;
    rows::row_of(e.report)
}

// The report of the search at a dryer of the host's dispatcher.
#[unsafe(no_mangle)]
pub extern "C" fn busdekker_dispatch_ask(dispatcher: &Dispatcher, dryer: u32) -> Row
    ensures { result ≡ row_of (dryer_report dispatcher.now dryer) }
{
    dispatch_numbers::step_ask(*dispatcher, dryer)
}
