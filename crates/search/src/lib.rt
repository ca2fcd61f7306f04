// The search over a list of values: the report on a lent slice of any length, and the quote. The walk is that of crate `walk`.
#![tactic(auto)]

ghost use Rattle.std.specs.Prelude.{◌≡◌, ◌≤◌};
ghost use Rattle.interpolation.specs.Ranges.{widest};
ghost use Rattle.rules.specs.Rules.{allowed};
ghost use Rattle.rules.specs.Search.{report_of, turns_of, quote_of};

use rules::{Method, Opening, Quote, Refusal, Report};

// The report on an opening and the values answered so far, of any length: a walk with no answer after them.
pub fn report_on(o: Opening, values: &[i32]) -> Report
    ensures { result ≡ report_of o values.now }
{
    let none = &values[..0];
    walk::follow(o, values, none, none)
}

// ---- the quote

// The steps in a row that need not halve.
fn allowed_streak(method: Method) -> u32
    ensures { result ≡ allowed method }
{
    match method {
        Method::M => 3,
        Method::R => 4,
    }
}

// The number of binary digits of the whole part of (distance − 1)/(2 tolerance).
fn turns(tolerance: u32, distance: u32) -> u32
    requires { (1 ≤ tolerance) × (tolerance ≤ widest) × (1 ≤ distance) }
    ensures { result ≡ turns_of tolerance distance }
{
    32 - u32::leading_zeros((distance - 1) / (2 * tolerance))
}

// t and the most answers that an opening may need, from τ alone whatever the share is; or its refusal.
pub fn quote(o: Opening) -> Result<Quote, Refusal>
    ensures { result ≡ quote_of o }
{
    if let Some(number) = refusals::opening_refusal(o) {
        return Err(Refusal { number, place: 0 });
    }
    let distance = o.first.unsigned_abs().abs_diff(o.second.unsigned_abs());
    let t = turns(o.tolerance.unsigned_abs(), distance);
    Ok(Quote {
        t,
        most: 2 + (allowed_streak(methods::method_of(o)) + 1) * t,
    })
}
