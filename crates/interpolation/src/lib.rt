// Rules 3 to 5 of document 01 in exact 64-bit arithmetic: the linear and the rational estimate, and the displacement that a fraction
// gives.
#![tactic(auto)]

ghost use Rattle.std.specs.Prelude.{◌≡◌, ◌≤◌, ◌*◌, pos, ◌<ℤ◌};
ghost use Rattle.integers.proofs.Bounds.{Within};
ghost use Rattle.rules.specs.Rules.{linear_of, cross_of, rational_of, doubled_of, forward_of, displacement_of};
ghost use Rattle.interpolation.specs.Ranges.{widest, Measured, most_cross, most_num, most_den, Small};
ghost use Rattle.interpolation.specs.Estimates.{estimate_of};

use rules::{Fraction, Sample};

// The estimate b − s(b − a)/q, as a fraction from b in the direction of the other end, which is upwards or not.
fn estimate(s: i64, q: i64, b: u32, a: u32, up: bool) -> Fraction
    requires { (Within s most_cross) × (Within q most_den) × (b ≤ widest) × (a ≤ widest) }
    ensures value { result ≡ estimate_of s q b a up }
    ensures small { Small 1 result }
{
    if q == 0 {
        if s == 0 {
            return Fraction { num: 0, den: 1 };
        }
        return Fraction { num: 1, den: 0 };
    }
    let n = -(s * (b as i64 - a as i64));
    if up {
        Fraction { num: n, den: q }
    } else {
        Fraction { num: -n, den: q }
    }
}

// Rule 4: the linear estimate.
pub fn linear(b: Sample, a: Sample, up: bool) -> Fraction
    requires { (Measured b) × (Measured a) }
    ensures value { result ≡ linear_of b a up }
    ensures small { Small 1 result }
{
    let f = b.value as i64;
    let rise = f - a.value as i64;
    estimate(f, rise, b.point, a.point, up)
}

// F(p)(F(q) − F(d))(p − d).
fn cross(p: Sample, q: Sample, d: Sample) -> i64
    requires { (Measured p) × (Measured q) × (Measured d) }
    ensures value { result ≡ cross_of p q d }
    ensures within { Within result most_cross }
{
    p.value as i64 * (q.value as i64 - d.value as i64) * (p.point as i64 - d.point as i64)
}

// Rule 5: the rational estimate, with a third point.
pub fn rational(b: Sample, a: Sample, d: Sample, up: bool) -> Fraction
    requires { (Measured b) × (Measured a) × (Measured d) }
    ensures value { result ≡ rational_of b a d up }
    ensures small { Small 1 result }
{
    let s = cross(b, a, d);
    let q = s - cross(a, b, d);
    estimate(s, q, b.point, a.point, up)
}

// Twice the fraction, as R has it before rounding.
pub fn doubled(u: Fraction) -> Fraction
    requires { Small 1 u }
    ensures value { result ≡ doubled_of u }
    ensures small { Small 2 result }
{
    Fraction {
        num: 2 * u.num,
        den: u.den,
    }
}

// Rule 3 for n / d with d above 0.
fn forward(tolerance: u32, width: u32, n: i64, d: i64) -> u32
    requires tolerance_le_widest { (tolerance ≤ widest) × (width ≤ widest) }
    requires within { (Within n (2 * most_num)) × (Within d most_den) × (pos 0 <ℤ d) }
    ensures { result ≡ forward_of tolerance width n d }
{
    if n < 0 {
        return width / 2;
    }
    if n <= tolerance as i64 * d {
        return tolerance;
    }
    if 2 * n <= width as i64 * d {
        (n / d) as u32
    } else {
        width / 2
    }
}

// Rule 3: the displacement for a fraction of either sign.
pub fn displacement(tolerance: u32, width: u32, u: Fraction) -> u32
    requires { (tolerance ≤ widest) × (width ≤ widest) × (Small 2 u) }
    ensures { result ≡ displacement_of tolerance width u }
{
    let n = u.num;
    let d = u.den;
    if d == 0 {
        return width / 2;
    }
    if d < 0 {
        forward(tolerance, width, -n, -d)
    } else {
        forward(tolerance, width, n, d)
    }
}
