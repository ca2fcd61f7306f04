// Answers in order, first values that come with no point and then answers with theirs: the value of each, whether its point is another
// than the one called for, and where the first two lead.
#![tactic(auto)]

ghost use Rattle.std.specs.Prelude.{◌≡◌, length, ◌+◌, ◌<◌};
ghost use Rattle.rules.specs.Search.{answered_at};
ghost use Rattle.rules.specs.declared.Progress.TheVariants.{First};
ghost use Rattle.answers.specs.Answers.{value_at, other_than, Begins};

use rules::{Opening, Progress, Sample};

// ---- one answer

// The value of answer i: one of `values`, and then of `tail`.
#[tactic(auto, unfolding(crate::specs::Answers::value_at))]
pub fn value_at(values: &[i32], tail: &[i32], i: usize) -> i32
    requires { i < length values.now + length tail.now }
    ensures { result ≡ value_at values.now tail.now i }
{
    let n = values.len();
    if i < n { values[i] } else { tail[i - n] }
}

// Whether answer i names another point than `call`: the first `free` name none.
#[tactic(auto, unfolding(crate::specs::Answers::other_than))]
pub fn other_at(free: usize, points: &[i32], i: usize, call: u32) -> bool
    requires { i < free + length points.now }
    ensures { result ≡ other_than free points.now i call }
{
    if i < free {
        return false;
    }
    i64::from(points[i - free]) != i64::from(call)
}

// ---- the first two

// The second answer, v, after the first, u.
fn offer_second(o: Opening, u: i32, other: bool, v: i32) -> Progress
    ensures { result ≡ answered_at o (First u) other v }
{
    let large = refusals::too_large(v);
    let same = refusals::same_side(u, v);
    if let Some(number) = refusals::answer_refusal(false, other, large, same) {
        return Progress::Refused { number, place: 1 };
    }
    let x0 = Sample {
        point: o.first.unsigned_abs(),
        value: u,
    };
    let x1 = Sample {
        point: o.second.unsigned_abs(),
        value: v,
    };
    Progress::Bracketed {
        bracket: brackets::start(x0, x1),
    }
}

// Where the first two answers lead, or as many as there are.
pub fn first_two(o: Opening, values: &[i32], points: &[i32], tail: &[i32]) -> Progress
    requires { length points.now ≡ length tail.now }
    ensures { Begins o values.now points.now tail.now result }
{
    if let Some(number) = refusals::opening_refusal(o) {
        return Progress::Refused { number, place: 0 };
    }
    let free = values.len();
    let total = free + tail.len();
    if total == 0 {
        return Progress::Begun;
    }
    let u = value_at(values, tail, 0);
    let other = other_at(free, points, 0, o.first.unsigned_abs());
    if let Some(number) = refusals::answer_refusal(false, other, refusals::too_large(u), false) {
        return Progress::Refused { number, place: 0 };
    }
    if total == 1 {
        return Progress::First { value: u };
    }
    let v = value_at(values, tail, 1);
    let other = other_at(free, points, 1, o.second.unsigned_abs());
    offer_second(o, u, other, v)
}
