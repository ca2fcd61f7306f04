// Brackets, by value: the first one, of rule 1 of document 01, and the one after a new point with its value, of rules 6 and 7.
#![tactic(auto)]

ghost use Rattle.std.specs.Prelude.{◌≡◌, ◌<◌};
ghost use Rattle.rules.specs.Rules.{pair_of, start_of, width_of, partner_of, third_of, streak_of, renewed_of, advance_of};
ghost use Rattle.brackets.specs.Countable.{Countable};

use rules::{Bracket, Sample};

// ---- rule 1

// The bracket of b and a = c after two answers, of which x was the second.
fn pair(b: Sample, c: Sample, x: Sample) -> Bracket
    ensures { result ≡ pair_of b c x }
{
    Bracket {
        better: b,
        other: c,
        previous: c,
        third: c,
        last: x,
        streak: 0,
        taken: 2,
    }
}

// Rule 1: the bracket of the first two samples.
pub fn start(x0: Sample, x1: Sample) -> Bracket
    ensures { result ≡ start_of x0 x1 }
{
    if comparisons::closer(x1, x0) {
        pair(x1, x0, x1)
    } else {
        pair(x0, x1, x1)
    }
}

// L = |b − c|.
pub fn width(k: Bracket) -> u32
    ensures { result ≡ width_of k }
{
    k.better.point.abs_diff(k.other.point)
}

// ---- rules 6 and 7

// Rule 6: the point answered just before x, or the end of the bracket that is not that point.
fn partner(k: Bracket, x: Sample) -> Sample
    ensures { result ≡ partner_of k x }
{
    let last = k.last;
    if comparisons::opposed(x.value, last.value) {
        return last;
    }
    if last.point == k.better.point {
        k.other
    } else {
        k.better
    }
}

// Rule 6: the old a if the new b is x or the old b, otherwise the old b.
fn third(k: Bracket, x: Sample, b: Sample) -> Sample
    ensures { result ≡ third_of k x b }
{
    if b.point == x.point || b.point == k.better.point {
        k.previous
    } else {
        k.better
    }
}

// Rule 7: the steps since the last halving step, after a step from one width to the next.
fn streak_after(old: u32, new: u32, streak: u32) -> u32
    requires { streak < 4294967295 }
    ensures { result ≡ streak_of old new streak }
{
    if 2 * u64::from(new) <= u64::from(old) + 1 {
        0
    } else {
        streak + 1
    }
}

// The bracket of b and c with the previous point a, after the new point x.
fn renewed(k: Bracket, x: Sample, b: Sample, c: Sample, a: Sample) -> Bracket
    requires { Countable k }
    ensures { result ≡ renewed_of k x b c a }
{
    let old = width(k);
    let new = b.point.abs_diff(c.point);
    let streak = streak_after(old, new, k.streak);
    let d = third(k, x, b);
    Bracket {
        better: b,
        other: c,
        previous: a,
        third: d,
        last: x,
        streak,
        taken: k.taken + 1,
    }
}

// Rule 6: the bracket after a new point with its value.
pub fn advance(k: Bracket, x: Sample) -> Bracket
    requires { Countable k }
    ensures { result ≡ advance_of k x }
{
    let p = partner(k, x);
    if comparisons::closer(x, p) {
        renewed(k, x, x, p, k.better)
    } else {
        renewed(k, x, p, x, x)
    }
}
