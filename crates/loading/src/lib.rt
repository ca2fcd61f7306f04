// A trial load that anyone can repeat: the numbers of its rules. There is no function here: see specs/.
#![tactic(auto)]

// The generator of Park and Miller: each draw is the last times the one, modulo the other.
pub const MULTIPLIER: u64 = 16807;

pub const MODULUS: u64 = 2147483647;

// The largest seed; the least is 1.
pub const LARGEST_SEED: u32 = 2147483646;

// What a draw is taken modulo, for a point, the tolerance, the method and a value; and the remainder that is a value on target.
pub const POINTS: u32 = 60001;

pub const TOLERANCES: u32 = 5000;

pub const METHODS: u32 = 2;

pub const VALUES: u32 = 20001;

pub const ON_TARGET: i32 = 10000;
