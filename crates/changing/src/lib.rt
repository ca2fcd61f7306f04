// The house default changed from M to R: an opening and a held search from before, in which method 0 was M, changed over.
#![tactic(auto)]

ghost use Rattle.std.specs.Prelude.{◌≡◌, false};
ghost use Rattle.rules.specs.Search.{is_refusal};
ghost use Rattle.held.specs.Held.{held_report};
ghost use Rattle.changeover.specs.Changeover.{old_default, number_under, opening_under, search_under, changed_search};
ghost use Rattle.changeover.specs.Claims.{ChangedSearch, RefusedBefore};

use held::{Entered, Search};
use rules::Opening;

// M's own number.
const NUMBER_OF_M: i32 = 1;

// The number of M in place of 0, and every other as it is.
fn number_under(method: i32) -> i32
    ensures { result ≡ number_under old_default method }
{
    if method == 0 { NUMBER_OF_M } else { method }
}

// An opening read with 0 as M.
pub fn under_old_default(o: Opening) -> Opening
    ensures { result ≡ opening_under old_default o }
{
    let mut named = o;
    named.method = number_under(o.method);
    named
}

// A search read with 0 as M: its report then, and beside it the search with method 1 in place of 0. One that is refused stays as it is. Of
// every search that is not refused the claim on searches changed over holds, and of every other the claim on what is refused.
pub fn change_search(search: Search) -> Entered
    ensures value { result ≡ changed_search search }
    ensures claimed { is_refusal (held_report (search_under old_default search)) ≡ false → ChangedSearch search }
    ensures refused_before { RefusedBefore }
{
    let opening = under_old_default(search.opening);
    let count = search.count;
    let slots = search.slots;
    let changed = Search {
        opening,
        count,
        slots,
    };
    let report = changed.report();
    if refusals::is_refusal(report) {
        return Entered { report, search };
    }
    Entered {
        report,
        search: changed,
    }
}
