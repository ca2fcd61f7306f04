// What an opening asks for: its method, the tolerance at a setting, and what the method uses at each streak (rule 8 of document 01).
#![tactic(auto)]

ghost use Rattle.std.specs.Prelude.{◌≡◌};
ghost use Rattle.rules.specs.Rules.{method_of, tolerance_at, step_of};

use rules::{Method, Opening, Step};

// The house default.
const HOUSE: Method = Method::R;

// The method that an opening's number stands for: 0 is the house default.
pub fn method_of(o: Opening) -> Method
    ensures { result ≡ method_of o }
{
    match o.method {
        0 => HOUSE,
        1 => Method::M,
        _ => Method::R,
    }
}

// The tolerance at the better end b. In 64 bits it is exact for every opening and every b.
#[tactic(auto, unfolding(rules::specs::Rules::tolerance_at))]
pub fn tolerance_at(o: Opening, b: u32) -> u64
    ensures { result ≡ tolerance_at o b }
{
    let tolerance = u64::from(o.tolerance.unsigned_abs());
    let share = u64::from(o.share.unsigned_abs());
    tolerance + share * u64::from(b) / 1000
}

// What M and R use at each streak.
#[tactic(auto, unfolding(rules::specs::Rules::step_of))]
pub fn step_at(method: Method, first: bool, streak: u32) -> Step
    ensures { result ≡ step_of method first streak }
{
    match method {
        Method::M => match streak {
            0 | 1 => Step::Linear,
            2 => Step::Rational,
            _ => Step::Bisection,
        },
        Method::R if first => Step::Linear,
        Method::R => match streak {
            0..=2 => Step::Rational,
            3 => Step::Doubled,
            _ => Step::Bisection,
        },
    }
}
