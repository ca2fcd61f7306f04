// Bytes, texts, decimal numbers and fields, put one after the other: a line in the making, or a reply. An inner crate: its callers see
// that there is room.
#![tactic(auto)]

ghost use Rattle.std.specs.Prelude.{◌≡◌, ◌+◌, ◌<◌, ◌≤◌, [], ◌∷◌, ◌++◌, length};
ghost use Rattle.lines.specs.Decimal.{decimal_of, number_fields};
ghost use Rattle.lines.specs.Line.{longest_line};

use std::marker::Model;

// Bytes put one after the other, of which there is room for so many. They lie in the value itself, and a contract calls those put its items.
#[derive(Clone, Copy)]
pub struct Bytes<const ROOM: usize> {
    bytes: [u8; ROOM],
    len: usize,
}

impl<const ROOM: usize> Model for Bytes<ROOM> {
    ghost use Rattle.std.specs.Prelude.{◌≡◌, ◌≤◌, ◌++◌, length, take, drop};
    ghost use Rattle.std.proofs.Common.{sym, subst, take-append-drop, length-take-le};
    ghost use Rattle.lines.specs.Bytes.{Put};

    ghost Value = { Put };

    ghost view = { λ b. record { items = take b.len b.bytes; spare = drop b.len b.bytes } };

    ghost invariant = { λ b. (b.len ≤ ROOM) × (length b.bytes ≡ ROOM) };

    ghost inverse = { λ p. record { bytes = p.items ++ p.spare; len = length p.items } };

    ghost inverse_ok = { λ b h i. record {
      bytes = take-append-drop b.len b.bytes i;
      len = length-take-le b.len b.bytes (subst (λ n. b.len ≤ n) (sym h.1) h.0) i;
    } };
}

impl<const ROOM: usize> Bytes<ROOM> {
    // No bytes.
    #[inline]
    pub fn new() -> Self
        ensures { result.items ≡ [] }
    {
        Bytes {
            bytes: [0; ROOM],
            len: 0,
        }
    }

    // One byte more.
    #[inline]
    pub fn put_byte(&mut self, byte: u8)
        requires { length self.old.items < ROOM }
        ensures { self.new.items ≡ self.old.items ++ byte ∷ [] }
    {
        let at = self.len;
        self.bytes[at] = byte;
        self.len = at + 1;
    }

    // The bytes of a text, one after the other.
    #[inline]
    pub fn put_text(&mut self, text: &[u8])
        requires { length self.old.items + length text.now ≤ ROOM }
        ensures { self.new.items ≡ self.old.items ++ text.now }
    {
        let at = self.len;
        let end = at + text.len();
        let bytes = &mut self.bytes[..];
        bytes[at..end].copy_from_slice(text);
        self.len = end;
    }

    // Those put.
    #[inline]
    pub fn as_slice(&self) -> &[u8]
        ensures value { result.now ≡ self.now.items }
        ensures fits { length result.now ≤ ROOM }
    {
        &self.bytes[..self.len]
    }
}

// The bytes that a line has room for: those of the longest record that is printed, `stop` and four numbers of ten digits.
pub const LONGEST_LINE: usize = 50;

pub type Line = Bytes<LONGEST_LINE>;

// The digits of a number: those of its tenth part, and the last.
pub fn put_number(line: &mut Line, n: u32)
    requires { length line.old.items + length (decimal_of n) ≤ longest_line }
    ensures { line.new.items ≡ line.old.items ++ decimal_of n }
{
    if n >= 10 {
        put_number(line, n / 10);
    }
    line.put_byte(b'0' + (n % 10) as u8);
}

// A comma and the digits, for each number.
pub fn put_fields(line: &mut Line, numbers: &[u32])
    requires { length line.old.items + length (number_fields numbers.now) ≤ longest_line }
    ensures { line.new.items ≡ line.old.items ++ number_fields numbers.now }
{
    for &n in numbers {
        line.put_byte(b',');
        put_number(line, n);
    }
}
