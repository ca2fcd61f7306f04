// The dispatcher: six dryers and one oven. A call takes the dispatcher by value and answers the report beside the dispatcher as it then is.
#![tactic(auto)]

ghost use Rattle.std.specs.Prelude.{◌≡◌, ◌<◌};
ghost use Rattle.held.specs.Held.{reopen_of};
ghost use Rattle.dispatching.specs.Dispatching.{dryers, fresh_dispatcher, with_search, raised, served_at, refused_with, settled_by};
ghost use Rattle.dispatching.specs.Dispatching.{turn_of, opening_at, answer_at, dryer_report};

use dispatching::{Dispatched, Dispatcher};
use held::{Entered, Search};
use rules::{Answer, Opening, Report};

// The dispatcher with another search at a dryer.
fn with_search(mut d: Dispatcher, dryer: u32, search: Search) -> Dispatcher
    requires { dryer < dryers }
    ensures { result ≡ with_search d dryer search }
{
    d.searches[dryer as usize] = search;
    d
}

// A count with one more served.
fn one_more(count: u32) -> u32
    ensures { result ≡ raised count }
{
    if count < dispatching::CEILING {
        count + 1
    } else {
        count
    }
}

// The dispatcher after an accepted answer for a dryer.
fn served(d: Dispatcher, dryer: u32, search: Search) -> Dispatcher
    requires { dryer < dryers }
    ensures { result ≡ served_at d dryer search }
{
    let own = dryer as usize;
    let mut next = with_search(d, dryer, search);
    next.last = dryer;
    next.counts[own] = one_more(d.counts[own]);
    next
}

// A refusal, beside the dispatcher as it was.
fn refused(d: Dispatcher, number: u32) -> Dispatched
    ensures { result ≡ refused_with number d }
{
    Dispatched {
        report: Report::Refused { number, place: 0 },
        dispatcher: d,
    }
}

// What is left once the search has answered: where it refuses, the dispatcher as it was; where it accepts, `next`.
fn settled(d: Dispatcher, e: Entered, next: Dispatcher) -> Dispatched
    ensures { result ≡ settled_by d e next }
{
    let report = e.report;
    if refusals::is_refusal(report) {
        return Dispatched {
            report,
            dispatcher: d,
        };
    }
    Dispatched {
        report,
        dispatcher: next,
    }
}

// A dryer's search made a fresh one of an opening, or the opening refused. It is no part of `open`: what stands behind the `else` there has its
// copy of the dispatcher cleared before anything is looked at.
fn reopened(d: Dispatcher, dryer: u32, search: Search, opening: Opening) -> Dispatched
    requires { dryer < dryers }
    ensures { result ≡ settled_by d (reopen_of search opening) (with_search d dryer (reopen_of search opening).search) }
{
    let e = search.reopen(opening);
    settled(d, e, with_search(d, dryer, e.search))
}

// A dispatcher with no search, none served and every count 0.
pub fn fresh() -> Dispatcher
    ensures { result ≡ fresh_dispatcher }
{
    let none = Search::blank();
    Dispatcher {
        searches: [none; dispatching::ALL_DRYERS],
        last: dispatching::DRYERS,
        counts: [0; dispatching::ALL_DRYERS],
    }
}

// The dryer that has the turn, or nobody.
pub fn turn(d: Dispatcher) -> Option<u32>
    ensures { result ≡ turn_of d }
{
    turns::turn(&d)
}

// The report of a dryer's search.
pub fn report(d: Dispatcher, dryer: u32) -> Report
    ensures { result ≡ dryer_report d dryer }
{
    let Some(search) = turns::found_at(d, dryer) else {
        return Report::Refused {
            number: rules::NO_SUCH_DRYER,
            place: 0,
        };
    };
    search.report()
}

// An opening for a dryer: its fresh search is put there, or the opening is refused.
pub fn open(d: Dispatcher, dryer: u32, opening: Opening) -> Dispatched
    ensures { result ≡ opening_at d dryer opening }
{
    let Some(search) = turns::found_at(d, dryer) else {
        return refused(d, rules::NO_SUCH_DRYER);
    };
    if turns::goes_on(&search) {
        return refused(d, rules::STILL_SEARCHING);
    }
    reopened(d, dryer, search, opening)
}

// An answer for a dryer: the turn is served, or the answer refused.
pub fn enter(d: Dispatcher, dryer: u32, answer: Answer) -> Dispatched
    ensures { result ≡ answer_at d dryer answer }
{
    let Some(search) = turns::found_at(d, dryer) else {
        return refused(d, rules::NO_SUCH_DRYER);
    };
    if turns::turn(&d) != Some(dryer) {
        return refused(d, rules::NOT_ITS_TURN);
    }
    let e = search.enter(answer.point, answer.value);
    settled(d, e, served(d, dryer, e.search))
}
