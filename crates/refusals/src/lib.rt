// The table "Refused, by place of check" of document 01, in code: the number of the first refusal of an opening and of an answer, if one
// applies; and whether a report is a refusal.
#![tactic(auto)]

ghost use Rattle.std.specs.Prelude.{◌≡◌, ◌||◌};
ghost use Rattle.rules.specs.Rules.{highest};
ghost use Rattle.rules.specs.Search.{is_refusal};
ghost use Rattle.rules.specs.Refusals.{if_any, opening_refusal, answer_refusal, too_large, same_side, outside};

use rules::{Opening, Report};

// ---- the opening

// Whether z is not from low to high.
pub fn beyond(low: u32, high: u32, z: i32) -> bool
    ensures { result ≡ outside low high z }
{
    let n = i64::from(z);
    n < i64::from(low) || i64::from(high) < n
}

// Whether either end is out of range.
fn end_beyond(first: i32, second: i32) -> bool
    ensures { result ≡ outside 0 highest first || outside 0 highest second }
{
    beyond(0, rules::HIGHEST, first) || beyond(0, rules::HIGHEST, second)
}

// The number of the first refusal of an opening, if one applies.
#[tactic(auto, unfolding(rules::specs::Refusals::opening_refusal))]
pub fn opening_refusal(o: Opening) -> Option<u32>
    ensures { result ≡ if_any (opening_refusal o) }
{
    if beyond(0, 2, o.method) {
        return Some(rules::UNKNOWN_METHOD);
    }
    if end_beyond(o.first, o.second) {
        return Some(rules::END_OUT_OF_RANGE);
    }
    if o.first == o.second {
        return Some(rules::ENDS_EQUAL);
    }
    if beyond(1, rules::LARGEST_TOLERANCE, o.tolerance) {
        return Some(rules::TOLERANCE_OUT_OF_RANGE);
    }
    if beyond(0, rules::LARGEST_SHARE, o.share) {
        return Some(rules::SHARE_OUT_OF_RANGE);
    }
    None
}

// ---- an answer

// Whether a value is out of range.
pub fn too_large(v: i32) -> bool
    ensures { result ≡ too_large v }
{
    rules::LARGEST_VALUE < v.unsigned_abs()
}

// Whether two values are both positive or both negative.
#[tactic(auto, unfolding(rules::specs::Refusals::same_side))]
pub fn same_side(v: i32, w: i32) -> bool
    ensures { result ≡ same_side v w }
{
    (0 < v && 0 < w) || (v < 0 && w < 0)
}

// The number of the first refusal of an answer, if one applies: the four causes, in the table's order.
#[tactic(auto, unfolding(rules::specs::Refusals::answer_refusal))]
pub fn answer_refusal(stopped: bool, other: bool, large: bool, same: bool) -> Option<u32>
    ensures { result ≡ if_any (answer_refusal stopped other large same) }
{
    if stopped {
        return Some(rules::HAD_STOPPED);
    }
    if other {
        return Some(rules::NOT_CALLED_FOR);
    }
    if large {
        return Some(rules::VALUE_OUT_OF_RANGE);
    }
    if same {
        return Some(rules::SAME_SIGN);
    }
    None
}

// ---- a report

// Whether a report is a refusal.
pub fn is_refusal(r: Report) -> bool
    ensures { result ≡ is_refusal r }
{
    matches!(r, Report::Refused { .. })
}
