// A survey of the whole range: the neighbouring pairs of values with a zero or negative product. See surveying/specs/Survey.antt.
#![tactic(auto)]

ghost use Rattle.std.specs.Prelude.{◌≡◌, ◌++◌, ◌+◌, ◌≤◌, ◌<◌, pos, length, drop};
ghost use Rattle.std.specs.List.{position};
ghost use Rattle.rules.specs.Refusals.{too_large};
ghost use Rattle.surveying.specs.Survey.{crosses_at, crossings_of, lower_points, is_misplaced, surveyed_of, list_of};
ghost use Rattle.surveying.specs.Inner.{checked_of};
ghost use Rattle.surveying.specs.Claims.{Surveyable, EverySurvey};

use rules::Refusal;

// Whether n values make no survey: they are too few or too many, the pitch is below 1, or a point is out of range. The points rise, so the first and
// the last are looked at; the last is worked out in 64 bits.
fn is_misplaced(lowest: i32, pitch: i32, n: usize) -> bool
    ensures { result ≡ is_misplaced lowest pitch n }
{
    if n < surveying::FEWEST {
        return true;
    }
    if surveying::MOST < n {
        return true;
    }
    if pitch < 1 {
        return true;
    }
    if lowest < 0 {
        return true;
    }
    let first = u64::from(lowest.unsigned_abs());
    let step = u64::from(pitch.unsigned_abs());
    (rules::HIGHEST as u64) < first + (n as u64 - 1) * step
}

// The first index of a value out of range.
fn first_large(values: &[i32]) -> Option<usize>
    ensures { result ≡ position too_large values.now }
{
    values.iter().position(|v| refusals::too_large(*v))
}

// Refuses a survey by its places, and then by the first value out of range.
fn check(lowest: i32, pitch: i32, values: &[i32]) -> Result<(), Refusal>
    ensures { result ≡ checked_of lowest pitch values.now }
{
    if is_misplaced(lowest, pitch, values.len()) {
        return Err(Refusal {
            number: rules::MISPLACED_SURVEY,
            place: 0,
        });
    }
    match first_large(values) {
        Some(i) => Err(Refusal {
            number: rules::VALUE_OUT_OF_RANGE,
            place: i as u32,
        }),
        None => Ok(()),
    }
}

// Whether the value at an index and the next one have a zero or negative product.
fn crosses_at(values: &[i32], i: usize) -> bool
    requires { i + 1 < length values.now }
    ensures { result ≡ crosses_at values.now i }
{
    comparisons::opposed(values[i], values[i + 1])
}

// How many neighbouring pairs have a zero or negative product. By `for`, not by `filter` and `count`: of that chain the compiler makes no loop that
// looks at several values at once.
fn count_pairs(values: &[i32]) -> usize
    requires { 1 ≤ length values.now }
    ensures { result ≡ length (crossings_of values.now) }
{
    let mut found: usize = 0;
    for i in 0..values.len() - 1 {
        if crosses_at(values, i) {
            found += 1;
        }
    }
    found
}

// Writes the lower points of these pairs to the beginning of a list that is long enough.
fn write_pairs(lowest: u32, pitch: u32, values: &[i32], list: &mut [u32])
    requires surveyable { Surveyable (pos lowest) (pos pitch) (length values.now) }
    requires values_in_bounds { length (crossings_of values.now) ≤ length list.old }
    ensures { list.new ≡ lower_points (pos lowest) (pos pitch) (crossings_of values.now)
        ++ drop (length (crossings_of values.now)) list.old }
{
    let mut point = lowest;
    let mut n: usize = 0;
    for at in 0..values.len() - 1 {
        let upper = point + pitch;
        if crosses_at(values, at) {
            list[n] = point;
            n += 1;
        }
        point = upper;
    }
}

// The lower point of each neighbouring pair whose values have a zero or negative product, written to the list, lowest first, and how many there are.
// The rest of the list keeps its contents, and so does the whole list where the survey is refused: the pairs are counted before any is written. The
// claim on every survey holds.
pub fn survey(lowest: i32, pitch: i32, values: &[i32], list: &mut [u32]) -> Result<u32, Refusal>
    ensures value { result ≡ surveyed_of lowest pitch values.now (length list.old) }
    ensures list_after { list.new ≡ list_of lowest pitch values.now list.old }
    ensures every_survey { EverySurvey }
{
    check(lowest, pitch, values)?;
    let n = count_pairs(values);
    if list.len() < n {
        return Err(Refusal {
            number: rules::LIST_TOO_SHORT,
            place: 0,
        });
    }
    write_pairs(lowest.unsigned_abs(), pitch.unsigned_abs(), values, list);
    Ok(n as u32)
}
