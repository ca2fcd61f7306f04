// The dryer panel: its registers, and what is told of a reply. There is no function here: see specs/.
#![tactic(auto)]

use held::Search;
use rules::Refusal;

// How many registers there are, the one that shows the point called for, and the one that takes a value.
pub const REGISTERS: usize = 7;

pub const POINT_REGISTER: usize = 1;

pub const ENTRY_REGISTER: u32 = 6;

// The functions, by their Modbus numbers: read holding registers, write single register.
pub const READ_HOLDING: u8 = 3;

pub const WRITE_SINGLE: u8 = 6;

// The length of a request of either function, the most registers that the protocol lets one ask for, and the length of the longest reply, to
// a read of all seven.
pub const REQUEST_LENGTH: usize = 5;

pub const MOST_ASKED: u32 = 125;

pub const LONGEST_REPLY: usize = 16;

// The exceptions, by their Modbus numbers.
#[derive(Clone, Copy)]
pub enum Exception {
    IllegalFunction = 1,
    IllegalAddress = 2,
    IllegalValue = 3,
    DeviceFailure = 4,
}

// What is told of a request, the length of the reply that stands in the lent buffer or a refusal, and beside it the search as it then is.
#[derive(Clone, Copy)]
pub struct Exchanged {
    pub replied: Result<u32, Refusal>,
    pub search: Search,
}
