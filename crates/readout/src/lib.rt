// What the panel reads: the registers of a report, and the reply to a read of some of them. An inner crate: some functions require what their
// callers have checked.
#![tactic(auto)]

ghost use Rattle.std.specs.Prelude.{◌≡◌, ◌+◌, ◌*◌, ◌≤◌, ◌++◌, length};
ghost use Rattle.held.proofs.HeldLaws.{WithinLimits};
ghost use Rattle.registers.specs.Registers.{registers_at};
ghost use Rattle.registers.specs.Exchange.{word_bytes, read_reply, longest_reply};
ghost use Rattle.registers.specs.Inner.{read_told, Readable};

use modbus::Reply;
use rules::Report;

// The flags: a value is awaited, or the search has stopped.
const AWAITED: u16 = 1;

const STOPPED: u16 = 2;

// Register 1 after the stop.
const NO_POINT: u16 = 0;

// The registers of a report, whose points lie within limits.
pub fn registers_at(report: Report) -> [u16; registers::REGISTERS]
    requires { WithinLimits report }
    ensures { result ≡ registers_at report }
{
    match report {
        Report::Next { point, taken } => [AWAITED, point as u16, 0, 0, 0, taken as u16, 0],
        Report::Stop {
            lower,
            upper,
            better,
            taken,
        } => [
            STOPPED,
            NO_POINT,
            lower as u16,
            upper as u16,
            better as u16,
            taken as u16,
            0,
        ],
        Report::Refused {
            number: _,
            place: _,
        } => [0; registers::REGISTERS],
    }
}

// Puts words to the end of a reply, each the high byte first.
fn put_words(reply: &mut Reply, words: &[u16])
    requires { length reply.old.items + 2 * length words.now ≤ longest_reply }
    ensures { reply.new.items ≡ reply.old.items ++ word_bytes words.now }
{
    for word in words {
        reply.put_text(&word.to_be_bytes());
    }
}

// The function, how many bytes follow, and the registers asked for.
fn read_words(words: [u16; registers::REGISTERS], request: &[u8]) -> Reply
    requires { Readable request.now }
    ensures { result.items ≡ read_reply words request.now }
{
    let address = modbus::word_at(request, 1) as usize;
    let quantity = modbus::word_at(request, 3) as usize;
    let count = (2 * quantity) as u8;
    let mut reply = Reply::new();
    reply.put_byte(registers::READ_HOLDING);
    reply.put_byte(count);
    put_words(&mut reply, &words[address..address + quantity]);
    reply
}

// The reply to a request of function 03.
pub fn read(words: [u16; registers::REGISTERS], request: &[u8]) -> Reply
    ensures { result.items ≡ read_told words request.now }
{
    match modbus::check_read(request) {
        Ok(()) => read_words(words, request),
        Err(exception) => modbus::exception(registers::READ_HOLDING, exception as u8),
    }
}
