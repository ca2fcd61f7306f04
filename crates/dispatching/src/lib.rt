// The types of the dispatcher: six dryers and one oven, of which requests 2026-04 and 2026-05 speak. There is no function here: see specs/.
#![tactic(auto)]

use held::Search;
use rules::Report;

// How many dryers share the oven: as a number, and as the length of an array with a place for each.
pub const DRYERS: u32 = 6;

pub const ALL_DRYERS: usize = 6;

// A dryer's count of served answers remains as it is from here on.
pub const CEILING: u32 = 1000000000;

// A search for each dryer, the dryer served last, and how many answers have been served at each. A dryer with no search holds a blank, whose
// report is a refusal: it never has the turn, and an opening takes its place. A mark that is no dryer reads as none served.
#[repr(C)]
#[derive(Clone, Copy)]
pub struct Dispatcher {
    pub searches: [Search; ALL_DRYERS],
    pub last: u32,
    pub counts: [u32; ALL_DRYERS],
}

// A report, and beside it the dispatcher as it then is.
#[derive(Clone, Copy)]
pub struct Dispatched {
    pub report: Report,
    pub dispatcher: Dispatcher,
}
