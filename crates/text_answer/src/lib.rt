// The text of an answer, put behind what a text has.
#![tactic(auto)]

ghost use Rattle.std.specs.Prelude.{◌≡◌, ◌++◌, ◌+◌, ◌≤◌, length};
ghost use Rattle.answer.specs.Said.{says};
ghost use Rattle.text_answer.specs.Text.{no_text, reply_text};

use answer::Answer;
use text_pieces::Text;

// A refusal's number in decimal, one digit or two (of a larger one its last two).
#[tactic(auto, unfolding(crate::specs::Text::no_text))]
fn put_no<const N: usize>(out: &mut Text<N>, n: u32)
    requires { length out.old + 6 ≤ N }
    ensures put { out.new ≡ out.old ++ no_text n }
    ensures upper_bound { length out.new ≤ length out.old + 6 }
{
    out.put(b"NO ");
    if 10 <= n {
        out.push(text_pieces::digit(n / 10 % 10));
    }
    out.push(text_pieces::digit(n % 10));
    out.push(b'\n');
}

// The answer's line, at most 12 bytes.
#[tactic(auto, unfolding(crate::specs::Text::reply_text, crate::specs::Text::ok_text, crate::specs::Text::value_text))]
pub fn put<const N: usize>(out: &mut Text<N>, a: Answer)
    requires { length out.old + 12 ≤ N }
    ensures put { out.new ≡ out.old ++ reply_text (says a) }
    ensures upper_bound { length out.new ≤ length out.old + 12 }
{
    match a {
        Ok(None) => out.put(b"OK\n"),
        Ok(Some(v)) => out.put_dword(b"OK ", v),
        Err(r) => put_no(out, answer::number(r)),
    }
}
