// A sheet's register as a line of a table: its offset, its length, its default and its masks.
#![tactic(auto)]

ghost use Rattle.std.specs.Prelude.{◌≡◌, ◌++◌, ◌+◌, ◌*◌, ◌<◌, ◌≤◌, length};
ghost use Rattle.sheet.specs.Sheet.{at, length_of, start_of};
ghost use Rattle.sheet_table.specs.Row.{heading, digit_of, column_of, char_of, row_text, table_text};

use text_pieces::Text;

// The heading of the table.
#[tactic(auto, unfolding(crate::specs::Row::heading))]
pub fn head() -> [u8; 82]
    ensures { result ≡ heading }
{
    *b"At  Bytes           Default             Guest              Host             Reset\n"
}

// ---- a number of L bytes, right-aligned in sixteen columns

// A byte of the sheet as a number.
fn number(s: &[u8], i: usize) -> usize
    ensures { (result ≡ at s.now i) × (result < 256) }
{
    sheet::byte_at(s, i) as usize
}

// Byte `t` of part `p` of entry `k`.
fn part_byte(s: &[u8], k: usize, p: usize, t: usize) -> u8
    requires { (k < 256) × (p < 4) × (t < 256) }
    ensures { result ≡ at s.now (start_of s.now k + p * length_of s.now k + t) }
{
    let low = number(s, 4 * k + 3);
    let high = number(s, 4 * k + 4);
    let long = number(s, 4 * k + 2);
    let start = low + high * 256;
    sheet::byte_at(s, start + p * long + t)
}

// Digit `d` of part `p`, from the right: two digits to a byte, and values are little-endian.
#[tactic(auto, unfolding(crate::specs::Row::digit_of))]
fn digit(s: &[u8], k: usize, p: usize, d: usize) -> u8
    requires { (k < 256) × (p < 4) × (d < 16) }
    ensures { result ≡ digit_of s.now k p d }
{
    let long = number(s, 4 * k + 2);
    if d < 2 * long {
        let b = part_byte(s, k, p, d / 2) as u32;
        if d % 2 == 0 {
            return text_pieces::digit(b);
        }
        return text_pieces::digit(b / 16);
    }
    b' '
}

// Column `c` of eighteen: two spaces, then the digits.
#[tactic(auto, unfolding(crate::specs::Row::column_of))]
fn column(s: &[u8], k: usize, p: usize, c: usize) -> u8
    requires { (k < 256) × (p < 4) × (c < 18) }
    ensures { result ≡ column_of s.now k p c }
{
    if c < 2 {
        return b' ';
    }
    digit(s, k, p, 17 - c)
}

// ---- a line

// Column `c` of entry `k`.
#[tactic(auto, unfolding(crate::specs::Row::char_of))]
fn character(s: &[u8], k: usize, c: usize) -> u8
    requires { (k < 256) × (c < 81) }
    ensures { result ≡ char_of s.now k c }
{
    let offset = sheet::byte_at(s, 4 * k + 1) as u32;
    let length = sheet::byte_at(s, 4 * k + 2) as u32;
    match c {
        0 => text_pieces::digit(offset / 16),
        1 => text_pieces::digit(offset),
        8 => text_pieces::digit(length),
        2..9 => b' ',
        _ => column(s, k, (c - 9) / 18, (c - 9) % 18),
    }
}

// A line of the table behind what is put: entry `k` of the sheet.
#[tactic(auto, unfolding(crate::specs::Row::row_text), using(crate::proofs::Laws::last_column))]
pub fn put_row<const N: usize>(s: &[u8], k: usize, out: &mut Text<N>)
    requires { (k < 256) × (length out.old + 82 ≤ N) }
    ensures put { out.new ≡ out.old ++ row_text s.now k }
    ensures long { length out.new ≡ length out.old + 82 }
{
    for c in 0..81 {
        out.push(character(s, k, c));
    }
    out.push(b'\n');
}

// A line of the table: entry `k` of the sheet.
pub fn row(s: &[u8], k: usize) -> Text<82>
    requires { k < 256 }
    ensures value { result ≡ row_text s.now k }
    ensures long { length result ≡ 82 }
{
    let mut line = Text::new();
    put_row(s, k, &mut line);
    line
}

// ---- the table

// The whole table: a line of 82 bytes for the heading, and for as many entries as byte 0 can say.
#[tactic(auto, unfolding(crate::specs::Row::table_text), using(crate::proofs::Laws::next_line, crate::proofs::Laws::last_line))]
pub fn table<const N: usize>(s: &[u8], out: &mut Text<N>)
    requires { length out.old + 20992 ≤ N }
    ensures put { out.new ≡ out.old ++ table_text s.now }
    ensures upper_bound { length out.new ≤ length out.old + 20992 }
{
    out.put(&head());
    for k in 0..sheet::count(s) {
        put_row(s, k, out);
    }
}
