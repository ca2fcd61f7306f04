// What a search does next: the stop of rule 2 of document 01, and the step of rule 8 with the point that it calls for.
#![tactic(auto)]

ghost use Rattle.std.specs.Prelude.{◌≡◌, ◌≤◌};
ghost use Rattle.interpolation.specs.Ranges.{widest};
ghost use Rattle.rules.specs.Rules.{stopped_of, reach_of, offset_of, next_of};
ghost use Rattle.steps.specs.Ready.{Surveyed, Ready};

use rules::{Bracket, Opening, Step};

// Rule 2: the search stops when L is at most twice the tolerance at b.
pub fn stopped(o: Opening, k: Bracket) -> bool
    ensures { result ≡ stopped_of o k }
{
    brackets::width(k) as u64 <= 2 * methods::tolerance_at(o, k.better.point)
}

// The displacement that a step takes.
fn reach(tolerance: u32, k: Bracket, step: Step) -> u32
    requires { (tolerance ≤ widest) × (Surveyed k) }
    ensures { result ≡ reach_of tolerance k step }
{
    let b = k.better;
    let a = k.previous;
    let d = k.third;
    let length = brackets::width(k);
    let up = b.point <= k.other.point;
    match step {
        Step::Linear => interpolation::displacement(
            tolerance,
            length,
            interpolation::linear(b, a, up),
        ),
        Step::Rational => interpolation::displacement(
            tolerance,
            length,
            interpolation::rational(b, a, d, up),
        ),
        Step::Doubled => {
            let u = interpolation::rational(b, a, d, up);
            interpolation::displacement(tolerance, length, interpolation::doubled(u))
        }
        Step::Bisection => length / 2,
    }
}

// D, of a search that goes on.
fn offset(o: Opening, k: Bracket) -> u32
    requires { Ready o k }
    ensures { result ≡ offset_of o k }
{
    let tolerance = methods::tolerance_at(o, k.better.point) as u32;
    let step = methods::step_at(methods::method_of(o), k.taken == 2, k.streak);
    reach(tolerance, k, step)
}

// The next point: b + D or b − D.
pub fn next_point(o: Opening, k: Bracket) -> u32
    requires { Ready o k }
    ensures { result ≡ next_of o k }
{
    let b = k.better.point;
    let d = offset(o, k);
    if b <= k.other.point { b + d } else { b - d }
}
