// The panel with what it tells as plain numbers, by value: what the interface for C does to the host's own search.
#![tactic(auto)]

ghost use Rattle.std.specs.Prelude.{◌≡◌};
ghost use Rattle.registers.specs.Exchange.{exchanged_of, reply_buffer};
ghost use Rattle.panel_numbers.specs.Numbers.{replied_row_of, exchanged_row_of};

use clean_sheets::WrittenRow;
use held::Search;
use rules::Refusal;

// What is told of a request as plain numbers, and beside it the search as it then is.
#[derive(Clone, Copy)]
pub struct ExchangedRow {
    pub replied: WrittenRow,
    pub search: Search,
}

// What is told of a request, as plain numbers.
fn replied_row(replied: Result<u32, Refusal>) -> WrittenRow
    ensures { result ≡ replied_row_of replied }
{
    match replied {
        Ok(length) => WrittenRow {
            kind: rules::WRITTEN_KIND,
            length,
            number: 0,
            place: 0,
        },
        Err(Refusal { number, place }) => WrittenRow {
            kind: rules::REFUSED_KIND,
            length: 0,
            number,
            place,
        },
    }
}

// A request is answered: see panel::panel.
pub fn step_panel(search: Search, request: &[u8], reply: &mut [u8]) -> ExchangedRow
    ensures { (result ≡ exchanged_row_of (exchanged_of search request.now reply.old))
        × (reply.new ≡ reply_buffer search request.now reply.old) }
{
    let told = panel::panel(search, request, reply);
    let replied = told.replied;
    let after = told.search;
    ExchangedRow {
        replied: replied_row(replied),
        search: after,
    }
}
