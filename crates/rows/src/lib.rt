// Reports and quotes as plain numbers, for C and for lists of numbers.
#![tactic(auto)]

ghost use Rattle.std.specs.Prelude.{◌≡◌};
ghost use Rattle.rules.specs.Rows.{row_of, quotation_of};

use rules::{Quotation, Quote, Refusal, Report, Row};

// A report as plain numbers.
pub fn row_of(report: Report) -> Row
    ensures { result ≡ row_of report }
{
    let none = Row {
        kind: 0,
        point: 0,
        lower: 0,
        upper: 0,
        better: 0,
        taken: 0,
        number: 0,
        place: 0,
    };
    match report {
        Report::Next { point, taken } => Row {
            kind: rules::NEXT_KIND,
            point,
            taken,
            ..none
        },
        Report::Stop {
            lower,
            upper,
            better,
            taken,
        } => Row {
            kind: rules::STOP_KIND,
            lower,
            upper,
            better,
            taken,
            ..none
        },
        Report::Refused { number, place } => Row {
            kind: rules::REFUSED_KIND,
            number,
            place,
            ..none
        },
    }
}

// A quote or the refusal of one as plain numbers.
pub fn quotation_of(quote: Result<Quote, Refusal>) -> Quotation
    ensures { result ≡ quotation_of quote }
{
    match quote {
        Ok(Quote { t, most }) => Quotation {
            kind: rules::QUOTED_KIND,
            t,
            most,
            number: 0,
            place: 0,
        },
        Err(Refusal { number, place }) => Quotation {
            kind: rules::REFUSED_KIND,
            t: 0,
            most: 0,
            number,
            place,
        },
    }
}
