// The fields of a record: one or two of them at a place of a text, each a number, or one between double quotes, and the comma, the CR LF
// or the end of the text after each.
#![tactic(auto)]

ghost use Rattle.std.specs.Prelude.{◌≡◌, ◌<◌};
ghost use Rattle.scanning.specs.Scan.{before_byte, before_end, before_next, field_at, pair_at};

use scanning::Scanned;

const CR: u8 = b'\r';

const LF: u8 = b'\n';

const COMMA: u8 = b',';

const DOUBLE_QUOTE: u8 = b'"';

// ---- what follows a number

// A number that a byte follows: on past the byte.
fn before_byte(s: &[u8], n: Option<Scanned<i32>>, byte: u8) -> Option<Scanned<i32>>
    requires { 0 < byte }
    ensures { result ≡ before_byte byte s.now n }
{
    let Scanned { value, next } = n?;
    if numbers::byte_at(s, next) != byte {
        return None;
    }
    Some(Scanned {
        value,
        next: next + 1,
    })
}

// A number that CR LF follow: on past them; or one that the text ends with.
fn before_end(s: &[u8], n: Option<Scanned<i32>>) -> Option<Scanned<i32>>
    ensures { result ≡ before_end s.now n }
{
    let Scanned { value, next } = n?;
    if s.len() <= next {
        return n;
    }
    if numbers::byte_at(s, next) != CR || numbers::byte_at(s, next + 1) != LF {
        return None;
    }
    Some(Scanned {
        value,
        next: next + 2,
    })
}

// A number that is the last of its record, or not.
fn before_next(s: &[u8], n: Option<Scanned<i32>>, last: bool) -> Option<Scanned<i32>>
    ensures { result ≡ before_next last s.now n }
{
    if last {
        before_end(s, n)
    } else {
        before_byte(s, n, COMMA)
    }
}

// ---- fields

// A number, or one between double quotes.
fn scan_field(s: &[u8], from: usize) -> Option<Scanned<i32>>
    ensures { result ≡ field_at s.now from }
{
    if numbers::byte_at(s, from) == DOUBLE_QUOTE {
        before_byte(s, numbers::scan_number(s, from + 1), DOUBLE_QUOTE)
    } else {
        numbers::scan_number(s, from)
    }
}

// A field that is the last of its record: on past the record.
pub fn scan_last(s: &[u8], from: usize) -> Option<Scanned<i32>>
    ensures { result ≡ before_end s.now (field_at s.now from) }
{
    before_end(s, scan_field(s, from))
}

// Two fields with a comma between them; after the second CR LF or the end of the text follow if it is the last of its record, and a
// comma if not.
#[tactic(auto, unfolding(scanning::specs::Scan::pair_at))]
pub fn scan_pair(s: &[u8], from: usize, last: bool) -> Option<Scanned<(i32, i32)>>
    ensures { result ≡ pair_at last s.now from }
{
    let first = before_byte(s, scan_field(s, from), COMMA)?;
    let second = before_next(s, scan_field(s, first.next), last)?;
    Some(Scanned {
        value: (first.value, second.value),
        next: second.next,
    })
}
