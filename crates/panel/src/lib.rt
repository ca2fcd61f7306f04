// The dryer panel: a Modbus server's answer to one request, over a held search.
#![tactic(auto)]

ghost use Rattle.std.specs.Prelude.{◌≡◌};
ghost use Rattle.registers.specs.Registers.{called_for};
ghost use Rattle.registers.specs.Exchange.{exchange_of, exchanged_of, reply_buffer};
ghost use Rattle.registers.specs.Claims.{PanelExchange, EveryValue, EveryPanelRun, EveryFreshPanelRun};
ghost use Rattle.registers.specs.Inner.{write_told};
ghost use Rattle.panel.specs.Told.{Tells};

use held::Search;
use modbus::Reply;
use registers::{Exception, Exchanged};
use rules::Refusal;

// A reply, and beside it the search as it then is.
#[derive(Clone, Copy)]
struct Told {
    reply: Reply,
    search: Search,
}

// A request of function 06, where `point` is called for.
fn write(search: Search, point: u16, request: &[u8]) -> Told
    requires { point ≡ called_for search }
    ensures { Tells result (write_told search request.now) }
{
    if let Err(exception) = modbus::check_write(request) {
        return Told {
            reply: modbus::exception(registers::WRITE_SINGLE, exception as u8),
            search,
        };
    }
    let value = modbus::signed(modbus::word_at(request, 3));
    let entered = search.enter(point as i32, value);
    let report = entered.report;
    if refusals::is_refusal(report) {
        return Told {
            reply: modbus::exception(registers::WRITE_SINGLE, Exception::IllegalValue as u8),
            search,
        };
    }
    let after = entered.search;
    Told {
        reply: modbus::echo(request),
        search: after,
    }
}

// Any request.
fn respond(search: Search, request: &[u8]) -> Told
    ensures { Tells result (exchange_of search request.now) }
{
    if request.len() == 0 {
        return Told {
            reply: modbus::no_reply(),
            search,
        };
    }
    let function = request[0];
    let report = search.report();
    if refusals::is_refusal(report) {
        return Told {
            reply: modbus::exception(function, Exception::DeviceFailure as u8),
            search,
        };
    }
    let words = readout::registers_at(report);
    if function == registers::READ_HOLDING {
        return Told {
            reply: readout::read(words, request),
            search,
        };
    }
    if function == registers::WRITE_SINGLE {
        return write(search, words[registers::POINT_REGISTER], request);
    }
    Told {
        reply: modbus::exception(function, Exception::IllegalFunction as u8),
        search,
    }
}

// A request of any length is answered: the reply stands at the beginning of the lent buffer, whose further bytes stay, and its length is told
// beside the search as it then is. A buffer shorter than 16 bytes is refused, 18, and left alone. The claims on the panel hold.
pub fn panel(search: Search, request: &[u8], reply: &mut [u8]) -> Exchanged
    ensures value { result ≡ exchanged_of search request.now reply.old }
    ensures reply_after { reply.new ≡ reply_buffer search request.now reply.old }
    ensures panel_exchange { PanelExchange search request.now }
    ensures every_value { EveryValue }
    ensures every_panel_run { EveryPanelRun }
    ensures every_fresh_panel_run { EveryFreshPanelRun }
{
    if reply.len() < registers::LONGEST_REPLY {
        return Exchanged {
            replied: Err(Refusal {
                number: rules::REPLY_TOO_SHORT,
                place: 0,
            }),
            search,
        };
    }
    let told = respond(search, request);
    // taken out first: lent from where it stands, it would keep the search beside it in memory, and a call took a quarter more stack
    let made = told.reply;
    let length = printing::place_text(made.as_slice(), reply) as u32;
    Exchanged {
        replied: Ok(length),
        search: told.search,
    }
}
