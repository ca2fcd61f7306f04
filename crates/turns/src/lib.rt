// Whose turn the oven is: counting round from the one after the last served, the first dryer whose search is accepted and unfinished.
#![tactic(auto)]

ghost use Rattle.std.specs.Prelude.{◌≡◌};
ghost use Rattle.dispatching.specs.Dispatching.{found_at, unfinished, start_after, turn_of};

use dispatching::Dispatcher;
use held::Search;
use rules::Report;

// Whether a search is accepted and unfinished: its report is a next point.
pub fn goes_on(search: &Search) -> bool
    ensures { result ≡ unfinished search.now }
{
    matches!(search.report(), Report::Next { .. })
}

// The search at a dryer, where there is such a dryer.
pub fn found_at(d: Dispatcher, dryer: u32) -> Option<Search>
    ensures { result ≡ found_at d dryer }
{
    d.searches.get(dryer as usize).copied()
}

// Where counting starts.
fn start_after(last: u32) -> u32
    ensures { result ≡ start_after last }
{
    if last < dispatching::DRYERS {
        last + 1
    } else {
        0
    }
}

// The dryer that has the turn, or nobody.
pub fn turn(d: &Dispatcher) -> Option<u32>
    ensures { result ≡ turn_of d.now }
{
    let first = start_after(d.last);
    for i in 0..dispatching::DRYERS {
        let dryer = (first + i) % dispatching::DRYERS;
        if goes_on(&d.searches[dryer as usize]) {
            return Some(dryer);
        }
    }
    None
}
