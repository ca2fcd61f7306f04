// What is asked without a held search, answered in plain numbers: the quote of an opening, the report on a list of values, on a sheet, and on
// a season; and a survey of the range.
#![tactic(auto)]

ghost use Rattle.std.specs.Prelude.{◌≡◌, length};
ghost use Rattle.rules.specs.Rows.{row_of, quotation_of};
ghost use Rattle.rules.specs.Search.{report_of, quote_of};
ghost use Rattle.outcomes.specs.Sheet.{sheet_of};
ghost use Rattle.seasons.specs.Season.{season_of, season_row_of};
ghost use Rattle.surveying.specs.Survey.{surveyed_of, list_of, surveyed_row_of};

use rules::{Opening, Quotation, Refusal, Row};
use seasons::SeasonRow;
use surveying::SurveyedRow;

// t and the most answers that an opening may need.
pub fn quotation(opening: Opening) -> Quotation
    ensures { result ≡ quotation_of (quote_of opening) }
{
    rows::quotation_of(search::quote(opening))
}

// The report on an opening and a list of values, of any length.
pub fn values_row(opening: Opening, values: &[i32]) -> Row
    ensures { result ≡ row_of (report_of opening values.now) }
{
    let listed = search::report_on(opening, values);
    rows::row_of(listed)
}

// The report on a trial sheet; the place of a refusal is a record.
pub fn sheet_row(text: &[u8]) -> Row
    ensures { result ≡ row_of (sheet_of text.now).report }
{
    let outcome = sheet::brief_of(text);
    let told = outcome.report;
    rows::row_of(told)
}

// The report on a season: a run of outcomes, four numbers each.
pub fn season_row(numbers: &[u16]) -> SeasonRow
    ensures { result ≡ season_row_of (season_of numbers.now) }
{
    let report = season::season(numbers);
    let counted = report.counted;
    let tallies = report.tallies;
    match counted {
        Ok(count) => SeasonRow {
            kind: rules::SEASON_KIND,
            outcomes: count,
            number: 0,
            place: 0,
            tallies,
        },
        Err(Refusal { number, place }) => SeasonRow {
            kind: rules::REFUSED_KIND,
            outcomes: 0,
            number,
            place,
            tallies,
        },
    }
}

// A survey of the range: the lower points of its pairs go into the list.
pub fn survey_row(lowest: i32, pitch: i32, values: &[i32], list: &mut [u32]) -> SurveyedRow
    ensures { (result ≡ surveyed_row_of (surveyed_of lowest pitch values.now (length list.old)))
        × (list.new ≡ list_of lowest pitch values.now list.old) }
{
    match survey::survey(lowest, pitch, values, list) {
        Ok(pairs) => SurveyedRow {
            kind: rules::SURVEYED_KIND,
            pairs,
            number: 0,
            place: 0,
        },
        Err(Refusal { number, place }) => {
            let kind = rules::REFUSED_KIND;
            SurveyedRow {
                kind,
                pairs: 0,
                number,
                place,
            }
        }
    }
}
