// The season report: a run of sheet outcomes is read once, and each outcome is entered into the tally of its method.
#![tactic(auto)]

ghost use Rattle.std.specs.Prelude.{◌≡◌, false, [], ◌∷◌, ◌+◌, ◌*◌, ◌≤◌, min, length};
ghost use Rattle.seasons.specs.Season.{other, outcomes_of, tally_of, tallies_of, most_outcomes, misshapen, no_tally, season_of};
ghost use Rattle.seasons.specs.Claims.{added, EverySeason};
ghost use Rattle.seasons.specs.Inner.{outcome_at, Bounded};

use rules::Refusal;
use seasons::{Outcome, Season, Tally};

// The tally of a method: 0, 1, 2, or 3 for any other.
fn booked_as(method: u16) -> usize
    ensures { result ≡ min method other }
{
    method.min(seasons::OTHER) as usize
}

// A tally of no outcome. No `Default` is derived: crate seasons has no function, and one there would be proved anew at each of its must-fail edits.
fn no_tally() -> Tally
    ensures { result ≡ no_tally }
{
    Tally {
        stopped: 0,
        unfinished: 0,
        refused: 0,
        answers: 0,
        quoted: 0,
        largest: 0,
    }
}

// A tally with one outcome more. A refused one adds to its count only.
fn with_outcome(tally: Tally, o: Outcome) -> Tally
    requires { Bounded tally most_outcomes }
    ensures { result ≡ added tally (tally_of (o ∷ [])) }
{
    if seasons::UNFINISHED < o.kind {
        return Tally {
            refused: tally.refused + 1,
            ..tally
        };
    }
    let searched = Tally {
        answers: tally.answers + u32::from(o.answers),
        quoted: tally.quoted + u32::from(o.quoted),
        largest: tally.largest.max(u32::from(o.answers)),
        ..tally
    };
    if o.kind == seasons::STOPPED {
        return Tally {
            stopped: tally.stopped + 1,
            ..searched
        };
    }
    Tally {
        unfinished: tally.unfinished + 1,
        ..searched
    }
}

// The outcome at a place of a run.
fn outcome_at(numbers: &[u16], i: usize) -> Outcome
    requires { 4 * i + 4 ≤ length numbers.now }
    ensures { result ≡ outcome_at numbers.now i }
{
    let at = seasons::NUMBERS * i;
    Outcome {
        kind: numbers[at],
        method: numbers[at + 1],
        answers: numbers[at + 2],
        quoted: numbers[at + 3],
    }
}

// The tallies of a run that is not refused.
fn tallies_of(numbers: &[u16]) -> [Tally; seasons::TALLIES]
    requires { misshapen (length numbers.now) ≡ false }
    ensures { result ≡ tallies_of (outcomes_of numbers.now) }
{
    let mut tallies = [no_tally(); seasons::TALLIES];
    for i in 0..numbers.len() / seasons::NUMBERS {
        let o = outcome_at(numbers, i);
        let k = booked_as(o.method);
        tallies[k] = with_outcome(tallies[k], o);
    }
    tallies
}

// Whether n numbers are more than 10,000 outcomes, or not in whole fours.
fn is_misshapen(n: usize) -> bool
    ensures { result ≡ misshapen n }
{
    if seasons::NUMBERS * seasons::MOST_OUTCOMES < n {
        return true;
    }
    n % seasons::NUMBERS != 0
}

// The report on a run of outcomes, four numbers each, of any length. A run that is misshapen is refused, 19, before a number of it is read.
// The claim on every season holds.
pub fn season(outcomes: &[u16]) -> Season
    ensures value { result ≡ season_of outcomes.now }
    ensures every_season { EverySeason }
{
    if is_misshapen(outcomes.len()) {
        return Season {
            counted: Err(Refusal {
                number: rules::MISSHAPEN_RUN,
                place: 0,
            }),
            tallies: [no_tally(); seasons::TALLIES],
        };
    }
    let count = (outcomes.len() / seasons::NUMBERS) as u32;
    let tallies = tallies_of(outcomes);
    Season {
        counted: Ok(count),
        tallies,
    }
}
