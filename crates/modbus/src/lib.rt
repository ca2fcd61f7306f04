// Modbus requests and replies, as far as they know no search: words, the checks of a request by itself, exceptions and the echo of a write. An
// inner crate: some functions require what their callers have checked.
#![tactic(auto)]

ghost use Rattle.std.specs.Prelude.{◌≡◌, ◌↔◌, ◌+◌, ◌<◌, [], length, IsOk, IfErr};
ghost use Rattle.registers.specs.Exchange.{word_at, signed_of, read_fault, top_bit_set, exception_reply, echo_reply};
ghost use Rattle.registers.specs.Inner.{exception_number, form_fault, Writable};

use lines::Bytes;
use registers::Exception;

// A reply: its bytes, of which there is room for those of the longest.
pub type Reply = Bytes<{ registers::LONGEST_REPLY }>;

// ---- words

// Two bytes as a word, the high one first.
pub fn word_at(request: &[u8], at: usize) -> u32
    requires { at + 1 < length request.now }
    ensures value { result ≡ word_at request.now at }
    ensures upper_bound { result < 65536 }
{
    256 * request[at] as u32 + request[at + 1] as u32
}

// A word as a two's complement number.
pub fn signed(word: u32) -> i32
    requires { word < 65536 }
    ensures { result ≡ signed_of word }
{
    if word < 32768 {
        return word as i32;
    }
    word as i32 - 65536
}

// ---- the checks of a request by itself

// A read: a wrong length, a quantity outside 1 to 125, a read past register 6.
pub fn check_read(request: &[u8]) -> Result<(), Exception>
    ensures ok { IsOk result ↔ (read_fault request.now ≡ 0) }
    ensures err { IfErr result (λ e. exception_number e ≡ read_fault request.now) }
{
    if request.len() != registers::REQUEST_LENGTH {
        return Err(Exception::IllegalValue);
    }
    let quantity = word_at(request, 3);
    if quantity < 1 {
        return Err(Exception::IllegalValue);
    }
    if registers::MOST_ASKED < quantity {
        return Err(Exception::IllegalValue);
    }
    let address = word_at(request, 1);
    let end = (address + quantity) as usize;
    if registers::REGISTERS < end {
        return Err(Exception::IllegalAddress);
    }
    Ok(())
}

// A write: a wrong length, an address other than register 6.
pub fn check_write(request: &[u8]) -> Result<(), Exception>
    ensures ok { IsOk result ↔ (form_fault request.now ≡ 0) }
    ensures err { IfErr result (λ e. exception_number e ≡ form_fault request.now) }
{
    if request.len() != registers::REQUEST_LENGTH {
        return Err(Exception::IllegalValue);
    }
    let address = word_at(request, 1);
    if address != registers::ENTRY_REGISTER {
        return Err(Exception::IllegalAddress);
    }
    Ok(())
}

// The check of a read as a number: its exception's, or 0 for none. It stands beside the check, since it was promised to callers that know no `Result`:
// it cannot fail.
pub fn read_fault(request: &[u8]) -> u8
    ensures { result ≡ read_fault request.now }
{
    match check_read(request) {
        Ok(()) => 0,
        Err(exception) => exception as u8,
    }
}

// The check of a write as a number, likewise.
pub fn form_fault(request: &[u8]) -> u8
    ensures { result ≡ form_fault request.now }
{
    match check_write(request) {
        Ok(()) => 0,
        Err(exception) => exception as u8,
    }
}

// ---- replies

// A function with its top bit set.
fn with_top_bit(function: u8) -> u8
    ensures { result ≡ top_bit_set function }
{
    if function < 128 {
        return function + 128;
    }
    function
}

// No bytes.
pub fn no_reply() -> Reply
    ensures { result.items ≡ [] }
{
    Reply::new()
}

// The function with its top bit set, and the exception's number.
pub fn exception(function: u8, fault: u8) -> Reply
    ensures { result.items ≡ exception_reply function fault }
{
    let mut reply = Reply::new();
    reply.put_byte(with_top_bit(function));
    reply.put_byte(fault);
    reply
}

// The request itself.
pub fn echo(request: &[u8]) -> Reply
    requires { Writable request.now }
    ensures { result.items ≡ echo_reply request.now }
{
    let mut reply = Reply::new();
    reply.put_text(request);
    reply
}
