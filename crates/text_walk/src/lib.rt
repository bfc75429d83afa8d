// The text of what a walk shows, at most 24 bytes, put behind what a text has.
#![tactic(auto)]

ghost use Rattle.std.specs.Prelude.{◌≡◌, ◌++◌, ◌+◌, ◌≤◌, length};
ghost use Rattle.walk.specs.Walk.{says_of};
ghost use Rattle.line_forms.specs.Ascii.{ascii};
ghost use Rattle.line_forms.specs.Hex.{hex_of};
ghost use Rattle.text_pieces.specs.Pieces.{end};
ghost use Rattle.text_walk.specs.Walk.{found_text, walk_text};

use text_pieces::Text;
use walk::Found;

// `OK FOUND `, the offset, and the count.
fn put_found<const N: usize>(out: &mut Text<N>, x: u8, n: u32)
    requires { length out.old + 24 ≤ N }
    ensures put { out.new ≡ out.old ++ (found_text ++ (hex_of 2 x ++ (ascii " " ++ (hex_of 2 n ++ end)))) }
    ensures upper_bound { length out.new ≤ length out.old + 24 }
{
    out.put(b"OK FOUND ");
    out.put_hex::<2>(x as u32);
    out.put_byte(b" ", n);
}

// How a walk ended, and the count.
#[tactic(auto, unfolding(text_answer::specs::Text::no_text, line_forms::specs::Hex::up_of))]
pub fn put_item<const N: usize>(out: &mut Text<N>, f: Found, n: u32)
    requires { length out.old + 24 ≤ N }
    ensures put { out.new ≡ out.old ++ walk_text (says_of f n) }
    ensures upper_bound { length out.new ≤ length out.old + 24 }
{
    match f {
        Found::At(x) => put_found(out, x, n),
        Found::Absent => out.put_byte(b"OK ABSENT ", n),
        Found::Pointer => out.put_byte(b"NO 10 ", n),
        Found::Endless => out.put_byte(b"NO 11 ", n),
        Found::Length => out.put(b"NO 1\n"),
    }
}
