// The numbers of a line, at the places that a row of any table gives; and a line read by any table.
#![tactic(auto)]

ghost use Rattle.std.specs.Prelude.{◌≡◌, ◌+◌, ◌<◌, ◌≤◌, None, IfSome, IfNone, length};
ghost use Rattle.line_forms.specs.Table.{wide};
ghost use Rattle.line_forms.specs.Read.{digit_of, hex_from, field_of, row_of, Bounded, numbers_of, read_by};

use line_forms::Row;

// The digit that a byte is, in upper-case hex. An arm a digit: ranges would be compared, which is slower on digits that come at random.
#[tactic(auto, unfolding(line_forms::specs::Read::digit_of))]
fn digit(b: u8) -> Option<u8>
    ensures digit { IfSome result (λ d. (d ≡ digit_of b) × (d ≤ 15)) }
    ensures other { IfNone result (15 < digit_of b) }
{
    match b {
        b'0' => Some(0),
        b'1' => Some(1),
        b'2' => Some(2),
        b'3' => Some(3),
        b'4' => Some(4),
        b'5' => Some(5),
        b'6' => Some(6),
        b'7' => Some(7),
        b'8' => Some(8),
        b'9' => Some(9),
        b'A' => Some(10),
        b'B' => Some(11),
        b'C' => Some(12),
        b'D' => Some(13),
        b'E' => Some(14),
        b'F' => Some(15),
        _ => None,
    }
}

// The number of k digits in upper-case hex from place `at` on.
fn number(s: &[u8], at: usize, k: usize) -> Option<u64>
    requires { (at + k ≤ length s.now) × (k ≤ 16) }
    ensures { result ≡ hex_from k s.now at 0 }
{
    let mut v: u64 = 0;
    for j in 0..k {
        let d = digit(s[at + j])?;
        v = v * 16 + (d as u64);
    }
    Some(v)
}

// The bytes of a number of k digits, with its space.
fn width(k: usize) -> usize
    requires { k ≤ 16 }
    ensures { result ≡ wide k }
{
    if k == 0 {
        return 0;
    }
    k + 1
}

// A row of a table: up to three numbers, of a, b and c digits.
pub fn row(a: usize, b: usize, c: usize) -> Row
    requires { (a ≤ 16) × (b ≤ 8) × (c ≤ 8) }
    ensures { result ≡ row_of a b c }
{
    Row {
        total: 1 + width(a) + width(b) + width(c),
        a: a,
        b: b,
        c: c,
    }
}

// A space at place `i` and a number of k digits behind it; where k is 0 there is no number, and it is 0.
fn field(s: &[u8], i: usize, k: usize) -> Option<u64>
    requires { (i + wide k ≤ length s.now) × (k ≤ 16) }
    ensures { result ≡ field_of s.now i k }
{
    if k == 0 {
        return Some(0);
    }
    if s[i] != b' ' {
        return None;
    }
    number(s, i + 1, k)
}

// The numbers of a line that is not empty, by a row. Its length is tested first, so that every place is one of the line's.
pub fn fields(l: &[u8], r: Row) -> Option<(u64, u32, u32)>
    requires { Bounded r × (1 ≤ length l.now) }
    ensures { result ≡ numbers_of l.now r }
{
    if l.len() != r.total {
        return None;
    }
    let i = 1 + width(r.a);
    let j = i + width(r.b);
    let x = field(l, 1, r.a)?;
    let y = field(l, i, r.b)?;
    let z = field(l, j, r.c)?;
    Some((x, y as u32, z as u32))
}

// A table of lines: the row of a letter, and what the numbers behind it ask.
pub trait Table {
    type Asked;

    ghost use Rattle.std.specs.Prelude.{◌≡◌, List, Option, None, true};
    ghost use Rattle.line_forms.specs.Table.{Form, find, all_rows, fits};
    ghost use Rattle.line_forms.specs.Read.{columns_of, asks_of, Fits};

    // The rows, as specs/ has them.
    ghost rows: { List (Form (Option Self.Asked)) };

    // The code's numbers hold the digits of each, and no row's letter is 0.
    ghost held: { all_rows fits rows ≡ true };

    ghost lettered: { find 0 rows ≡ None };

    fn row(letter: u8) -> Option<Row>
        ensures { result ≡ columns_of (find letter rows) };

    fn asks(letter: u8, x: u64, y: u32, z: u32) -> Option<Self::Asked>
        requires { Fits (find letter rows) x y z }
        ensures { result ≡ asks_of None (find letter rows) x y z };
}

// What a line asks, without its LF.
pub fn read<T: Table>(l: &[u8]) -> Option<T::Asked>
    ensures { result ≡ read_by None T.rows l.now }
{
    let letter = *l.first()?;
    let (x, y, z) = fields(l, T::row(letter)?)?;
    T::asks(letter, x, y, z)
}
