// The numbers of a text, in one pass: the byte at a place, and an optional minus and digits from a place on.
#![tactic(auto)]

ghost use Rattle.std.specs.Prelude.{◌≡◌, ◌≤◌, get_or};
ghost use Rattle.forms.specs.Number.{signed};
ghost use Rattle.scanning.specs.Scan.{digit_at, digits_at, number_at};

use scanning::Scanned;

const MINUS: u8 = b'-';

const MOST_DIGITS: usize = 5;

// ---- bytes

// The byte at a place; after the last one 0, which is none of those that a record is made of.
pub fn byte_at(s: &[u8], at: usize) -> u8
    ensures { result ≡ get_or s.now at 0 }
{
    s.get(at).copied().unwrap_or(0)
}

// The digit at a place, where one stands.
fn digit_at(s: &[u8], at: usize) -> Option<u32>
    ensures { result ≡ digit_at s.now at }
{
    match byte_at(s, at) {
        b @ b'0'..=b'9' => Some((b - b'0') as u32),
        _ => None,
    }
}

// ---- numbers

// n, or its negation.
fn with_sign(negative: bool, n: u32) -> i32
    requires { n ≤ 99999 }
    ensures { result ≡ signed negative n }
{
    let n = n as i32;
    if negative { -n } else { n }
}

// 1 to 5 digits, with a sign. A sixth is left to whoever asks what follows: it is no comma, no quote and no end.
fn scan_digits(s: &[u8], negative: bool, from: usize) -> Option<Scanned<i32>>
    ensures { result ≡ digits_at negative s.now from }
{
    let mut v: u32 = 0;
    let mut i = from;
    for _ in 0..MOST_DIGITS {
        let Some(d) = digit_at(s, i) else { break };
        v = v * 10 + d;
        i += 1;
    }
    if i == from {
        return None;
    }
    Some(Scanned {
        value: with_sign(negative, v),
        next: i,
    })
}

// An optional minus, and digits.
pub fn scan_number(s: &[u8], from: usize) -> Option<Scanned<i32>>
    ensures { result ≡ number_at s.now from }
{
    let negative = byte_at(s, from) == MINUS;
    let start = if negative { from + 1 } else { from };
    scan_digits(s, negative, start)
}
