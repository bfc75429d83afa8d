// The text of what a look shows, at most 24 bytes, put behind what a text has.
#![tactic(auto)]

ghost use Rattle.std.specs.Prelude.{◌≡◌, ◌++◌, ◌+◌, ◌≤◌, length};
ghost use Rattle.rules.specs.Answers.{claim_says};
ghost use Rattle.probe.specs.Probe.{probe_says};
ghost use Rattle.asked.specs.Asked.{shown_says};
ghost use Rattle.text_shown.specs.Answers.{claim_text, probe_text, said_text};

use asked::Shown;
use probe::Range;
use rules::Claim;
use text_pieces::Text;

fn put_window<const N: usize>(out: &mut Text<N>, c: Option<Claim>)
    requires { length out.old + 24 ≤ N }
    ensures put { out.new ≡ out.old ++ claim_text (claim_says c) }
    ensures upper_bound { length out.new ≤ length out.old + 24 }
{
    match c {
        Some(Claim::Translation(x)) => out.put_dword(b"OK TRANSLATION ", x),
        Some(Claim::Aperture(x)) => out.put_dword(b"OK APERTURE ", x),
        Some(Claim::Io(x)) => out.put_dword(b"OK IO ", x),
        None => out.put(b"OK NONE\n"),
    }
}

#[tactic(auto, unfolding(text_answer::specs::Text::no_text, line_forms::specs::Hex::up_of))]
fn put_range<const N: usize>(out: &mut Text<N>, p: Option<Range>)
    requires { length out.old + 24 ≤ N }
    ensures put { out.new ≡ out.old ++ probe_text (probe_says p) }
    ensures upper_bound { length out.new ≤ length out.old + 24 }
{
    match p {
        Some(Range::Io(e)) => out.put_byte(b"OK IO ", e),
        Some(Range::Memory32(e)) => out.put_byte(b"OK MEM32 ", e),
        Some(Range::Memory64(e)) => out.put_byte(b"OK MEM64 ", e),
        None => out.put(b"NO 8\n"),
    }
}

// The line of what is shown.
#[tactic(auto, unfolding(crate::specs::Answers::said_text))]
pub fn put_shown<const N: usize>(out: &mut Text<N>, w: Shown)
    requires { length out.old + 24 ≤ N }
    ensures put { out.new ≡ out.old ++ said_text (shown_says w) }
    ensures upper_bound { length out.new ≤ length out.old + 24 }
{
    match w {
        Shown::Claimed(c) => put_window(out, c),
        Shown::Range(p) => put_range(out, p),
        Shown::Item(f, n) => text_walk::put_item(out, f, n),
    }
}
