// The types of the search, of which document 01 speaks. There is no function here: see specs/.
#![tactic(auto)]

// The limits: of a point, of the tolerance, of the share, of a value above and below 0, and of the answers that a held search keeps.
pub const HIGHEST: u32 = 60000;

pub const LARGEST_TOLERANCE: u32 = 5000;

pub const LARGEST_SHARE: u32 = 100;

pub const LARGEST_VALUE: u32 = 10000;

pub const SLOTS: usize = 77;

// The refusals by number. An opening: method not 0, 1 or 2; an end out of range; ends equal; τ out of range; p out of range.
pub const UNKNOWN_METHOD: u32 = 1;

pub const END_OUT_OF_RANGE: u32 = 2;

pub const ENDS_EQUAL: u32 = 3;

pub const TOLERANCE_OUT_OF_RANGE: u32 = 4;

pub const SHARE_OUT_OF_RANGE: u32 = 17;

// An answer: the search had stopped; its point, where one is given, is not the one called for; value out of range; second answer, and
// the first two values are both positive or both negative.
pub const HAD_STOPPED: u32 = 5;

pub const NOT_CALLED_FOR: u32 = 6;

pub const VALUE_OUT_OF_RANGE: u32 = 7;

pub const SAME_SIGN: u32 = 8;

// A held search: count above the slots.
pub const COUNT_ABOVE: u32 = 9;

// A text: longer than 4,096 bytes; an answer record past the last slot; the form of a record is wrong, or the first is absent.
pub const TOO_LONG: u32 = 10;

pub const TOO_MANY: u32 = 11;

pub const MALFORMED: u32 = 12;

// A buffer that a clean sheet is to be written into: shorter than the sheet.
pub const BUFFER_TOO_SHORT: u32 = 13;

// A dispatcher: dryer not 0 to 5; an answer for a dryer that has not the turn; an opening for a dryer whose search is accepted and unfinished.
pub const NO_SUCH_DRYER: u32 = 14;

pub const NOT_ITS_TURN: u32 = 15;

pub const STILL_SEARCHING: u32 = 16;

// The buffer that a panel's reply goes into: shorter than 16 bytes.
pub const REPLY_TOO_SHORT: u32 = 18;

// A run of outcomes that a season report is made of: more than 10,000 of them, or numbers not in whole fours.
pub const MISSHAPEN_RUN: u32 = 19;

// The seed of a trial load: not 1 to 2,147,483,646.
pub const SEED_OUT_OF_RANGE: u32 = 20;

// A survey: fewer than 2 or more than 600 values, a pitch below 1, or a point out of range; the list that is lent is shorter than the pairs found.
pub const MISPLACED_SURVEY: u32 = 21;

pub const LIST_TOO_SHORT: u32 = 22;

// An opening: the method, the first end x0, the second end x1, the tolerance τ, and the share p of a setting that is added to it, in parts
// per thousand. A sheet may hold any of them out of range.
#[repr(C)]
#[derive(Clone, Copy)]
pub struct Opening {
    pub method: i32,
    pub first: i32,
    pub second: i32,
    pub tolerance: i32,
    pub share: i32,
}

// An answer: the point of a trial, and the value that came out. Either may be out of range.
#[repr(C)]
#[derive(Clone, Copy)]
pub struct Answer {
    pub point: i32,
    pub value: i32,
}

// Algorithms M and R of Bus and Dekker.
#[derive(Clone, Copy)]
pub enum Method {
    M,
    R,
}

// A point with its value F(p).
#[derive(Clone, Copy)]
pub struct Sample {
    pub point: u32,
    pub value: i32,
}

// What a search knows from its second answer on. b is `better`, c `other`, a `previous`, d `third`; `last` is the point answered
// last, `streak` is s, and `taken` counts the answers.
#[derive(Clone, Copy)]
pub struct Bracket {
    pub better: Sample,
    pub other: Sample,
    pub previous: Sample,
    pub third: Sample,
    pub last: Sample,
    pub streak: u32,
    pub taken: u32,
}

// The exact fraction u = num / den, of either sign. Where den is 0, there is no estimate.
#[derive(Clone, Copy)]
pub struct Fraction {
    pub num: i64,
    pub den: i64,
}

// What a step takes its displacement from.
#[derive(Clone, Copy)]
pub enum Step {
    Linear,
    Rational,
    Doubled,
    Bisection,
}

// Where a search stands after the answers so far.
#[derive(Clone, Copy)]
pub enum Progress {
    Begun,
    First { value: i32 },
    Bracketed { bracket: Bracket },
    Refused { number: u32, place: u32 },
}

// What is told of a search: the next point, the stop, or a refusal.
#[derive(Clone, Copy)]
pub enum Report {
    Next {
        point: u32,
        taken: u32,
    },
    Stop {
        lower: u32,
        upper: u32,
        better: u32,
        taken: u32,
    },
    Refused {
        number: u32,
        place: u32,
    },
}

// The kinds of reports, quotes, written sheets, panels' replies, season reports and surveys as plain numbers: a next point, the stop, a refusal, a
// quote, what was written, a season, a survey.
pub const NEXT_KIND: u32 = 1;

pub const STOP_KIND: u32 = 2;

pub const REFUSED_KIND: u32 = 3;

pub const QUOTED_KIND: u32 = 4;

pub const WRITTEN_KIND: u32 = 5;

pub const SEASON_KIND: u32 = 6;

pub const SURVEYED_KIND: u32 = 7;

// A report as plain numbers, where no enum can stand: `kind` says which of the three it is, and a number that its kind has not is 0.
#[repr(C)]
#[derive(Clone, Copy)]
pub struct Row {
    pub kind: u32,
    pub point: u32,
    pub lower: u32,
    pub upper: u32,
    pub better: u32,
    pub taken: u32,
    pub number: u32,
    pub place: u32,
}

// A refusal: its number, and the place that it names.
#[derive(Clone, Copy)]
pub struct Refusal {
    pub number: u32,
    pub place: u32,
}

// What is quoted of an opening before the first trial: t and the most answers that may be needed.
#[derive(Clone, Copy)]
pub struct Quote {
    pub t: u32,
    pub most: u32,
}

// A quote or the refusal of one as plain numbers: `kind` says whether it is a quote or a refusal, and a number that its kind has not is 0.
#[repr(C)]
#[derive(Clone, Copy)]
pub struct Quotation {
    pub kind: u32,
    pub t: u32,
    pub most: u32,
    pub number: u32,
    pub place: u32,
}
