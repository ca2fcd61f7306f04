// A survey of the whole range as types. There is no function here: see specs/.
#![tactic(auto)]

// The fewest and the most values of a survey.
pub const FEWEST: usize = 2;

pub const MOST: usize = 600;

// What is told of a survey, how many pairs were found or a refusal, as plain numbers: `kind` says which of them, and a number that its kind has
// not is 0.
#[repr(C)]
#[derive(Clone, Copy)]
pub struct SurveyedRow {
    pub kind: u32,
    pub pairs: u32,
    pub number: u32,
    pub place: u32,
}
