// The walk over answers: the one loop that takes them in turn. Every report on answers comes from here, over a list of values, over the
// answers of a sheet, and over held values with one offered answer.
#![tactic(auto)]

ghost use Rattle.std.specs.Prelude.{◌≡◌, length};
ghost use Rattle.rules.specs.Rules.{lower_of, upper_of};
ghost use Rattle.rules.specs.Search.{progress_of, answers_of, report_at};
ghost use Rattle.rules.specs.declared.Progress.TheVariants.{Bracketed};
ghost use Rattle.rules.specs.declared.Report.TheVariants.{Stop};
ghost use Rattle.answers.specs.Answers.{Led};

use rules::{Bracket, Opening, Progress, Report, Sample};

// The report at the stop.
fn stop_report(k: Bracket) -> Report
    ensures { result ≡ Stop (lower_of k) (upper_of k) k.better.point k.taken }
{
    let b = k.better.point;
    let c = k.other.point;
    Report::Stop {
        lower: b.min(c),
        upper: b.max(c),
        better: b,
        taken: k.taken,
    }
}

// The report on the answers, of which two have led to a bracket. The bracket is all that is kept from answer to answer: its `streak` is
// the s of rule 7 as a running number, and no earlier bracket is looked at.
fn walk_on(o: Opening, bracket: Bracket, values: &[i32], points: &[i32], tail: &[i32]) -> Report
    requires { (length points.now ≡ length tail.now) × Led o values.now points.now tail.now 2 (Bracketed bracket) }
    ensures { result ≡ report_at o (answers_of o (progress_of o values.now) points.now tail.now) }
{
    let free = values.len();
    let total = free + tail.len();
    let mut k = bracket;
    let mut i: usize = 2;
    loop {
        let taken = k.taken;
        if steps::stopped(o, k) {
            if i < total {
                return Report::Refused {
                    number: rules::HAD_STOPPED,
                    place: taken,
                };
            }
            return stop_report(k);
        }
        let point = steps::next_point(o, k);
        if total <= i {
            return Report::Next { point, taken };
        }
        let v = answers::value_at(values, tail, i);
        let other = answers::other_at(free, points, i, point);
        if let Some(number) = refusals::answer_refusal(
            false,
            other,
            refusals::too_large(v),
            false,
        ) {
            return Report::Refused {
                number,
                place: taken,
            };
        }
        k = brackets::advance(k, Sample { point, value: v });
        i += 1;
    }
}

// The report on an opening and its answers, of any length: `values` come with no point, and after them each of `tail` with its point.
pub fn follow(o: Opening, values: &[i32], points: &[i32], tail: &[i32]) -> Report
    requires { length points.now ≡ length tail.now }
    ensures { result ≡ report_at o (answers_of o (progress_of o values.now) points.now tail.now) }
{
    match answers::first_two(o, values, points, tail) {
        Progress::Begun => {
            let point = o.first.unsigned_abs();
            Report::Next { point, taken: 0 }
        }
        Progress::First { .. } => {
            let point = o.second.unsigned_abs();
            Report::Next { point, taken: 1 }
        }
        Progress::Bracketed { bracket } => walk_on(o, bracket, values, points, tail),
        Progress::Refused { number, place } => Report::Refused { number, place },
    }
}
