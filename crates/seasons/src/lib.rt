// The season report as types: the outcomes of sheets, what is told of those of one method, and the report. There is no function here: see specs/.
#![tactic(auto)]

use rules::Refusal;

// The most outcomes of a run, and the numbers of each.
pub const MOST_OUTCOMES: usize = 10000;

pub const NUMBERS: usize = 4;

// The kinds of outcomes: the sheet's search has stopped, it is unfinished, the sheet is refused. Any other number says refused too.
pub const STOPPED: u16 = 0;

pub const UNFINISHED: u16 = 1;

pub const REFUSED: u16 = 2;

// Outcomes are booked under the method that they carry, 0, 1 or 2, and any other under 3; so there are four tallies.
pub const OTHER: u16 = 3;

pub const TALLIES: usize = 4;

// The outcome of a sheet, in the order of a run's numbers: its kind, the method, the answers taken and the most answers quoted.
#[repr(C)]
#[derive(Clone, Copy)]
pub struct Outcome {
    pub kind: u16,
    pub method: u16,
    pub answers: u16,
    pub quoted: u16,
}

// What is told of the outcomes of one method: the number of each kind; of those not refused the total answers, the total quoted, and the largest
// number of answers in one search, 0 for none.
#[repr(C)]
#[derive(Clone, Copy)]
pub struct Tally {
    pub stopped: u32,
    pub unfinished: u32,
    pub refused: u32,
    pub answers: u32,
    pub quoted: u32,
    pub largest: u32,
}

// The report on a run: how many outcomes it has, or its refusal; and a tally for each of methods 0, 1 and 2 and one for any other. Beside a
// refusal every number in them is 0.
#[derive(Clone, Copy)]
pub struct Season {
    pub counted: Result<u32, Refusal>,
    pub tallies: [Tally; TALLIES],
}

// The same as plain numbers: `kind` says whether the run was counted or refused, and a number that its kind has not is 0.
#[repr(C)]
#[derive(Clone, Copy)]
pub struct SeasonRow {
    pub kind: u32,
    pub outcomes: u32,
    pub number: u32,
    pub place: u32,
    pub tallies: [Tally; TALLIES],
}
