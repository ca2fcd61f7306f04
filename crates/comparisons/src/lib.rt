// Comparisons of values in exact arithmetic: the tests that rules 1 and 6 of document 01 share.
#![tactic(auto)]

ghost use Rattle.std.specs.Prelude.{◌≡◌};
ghost use Rattle.rules.specs.Rules.{closer, opposed};

use rules::Sample;

// Whether the value of p is at least as close to zero as that of q.
pub fn closer(p: Sample, q: Sample) -> bool
    ensures { result ≡ closer p q }
{
    p.value.unsigned_abs() <= q.value.unsigned_abs()
}

// Whether the product of two values is zero or negative.
pub fn opposed(v: i32, w: i32) -> bool
    ensures { result ≡ opposed v w }
{
    i64::from(v) * i64::from(w) <= 0
}
