// Clean sheets: what is told of one that is written, in plain numbers. There is no function here: see specs/.
#![tactic(auto)]

// The length of the longest clean sheet: an opening of 24 bytes and 14 for each slot. A buffer of so many bytes takes every one.
pub const LONGEST_SHEET: usize = 24 + 14 * rules::SLOTS;

// What is told of a sheet or a panel's reply that was to be written into a buffer, its length or a refusal, as plain numbers: `kind` says whether
// something was written or it is a refusal, and a number that its kind has not is 0.
#[repr(C)]
#[derive(Clone, Copy)]
pub struct WrittenRow {
    pub kind: u32,
    pub length: u32,
    pub number: u32,
    pub place: u32,
}
