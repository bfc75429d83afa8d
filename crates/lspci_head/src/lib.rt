// The head line of a dump, as `lspci -n -xxx` prints it, and the digits of a byte.
#![tactic(auto)]

ghost use Rattle.std.specs.Prelude.{◌≡◌, ◌++◌, ◌+◌, ◌%◌, ◌<◌, ◌≤◌, length};
ghost use Rattle.lspci_head.specs.Head.{low_of, low_pair, word_text, rev_text, ids_text, head_text};

use text_pieces::Text;

// ---- digits

// The last digit of n in lower-case hex: lspci's own, beside the upper-case one of `text_pieces`.
#[tactic(auto, unfolding(crate::specs::Head::low_of))]
fn digit(n: u8) -> u8
    ensures { result ≡ low_of (n % 16) }
{
    let d = n % 16;
    if d < 10 {
        return 48 + d;
    }
    87 + d
}

// The two digits of x.
#[tactic(auto, unfolding(crate::specs::Head::low_pair))]
pub fn put_pair<const N: usize>(out: &mut Text<N>, x: u8)
    requires { length out.old + 2 ≤ N }
    ensures put { out.new ≡ out.old ++ low_pair x }
    ensures long { length out.new ≡ length out.old + 2 }
{
    out.push(digit(x / 16));
    out.push(digit(x));
}

// ---- the head line

// The four digits of the two bytes at `at`.
#[tactic(auto, unfolding(crate::specs::Head::word_text))]
fn put_word<const N: usize>(out: &mut Text<N>, b: &[u8; 256], at: usize)
    requires { (length out.old + 4 ≤ N) × (at + 1 < 256) }
    ensures put { out.new ≡ out.old ++ word_text b.now at }
    ensures long { length out.new ≡ length out.old + 4 }
{
    put_pair(out, b[at + 1]);
    put_pair(out, b[at]);
}

// The revision, where it is not 0.
#[tactic(auto, unfolding(crate::specs::Head::rev_text))]
fn put_rev<const N: usize>(out: &mut Text<N>, x: u8)
    requires { length out.old + 9 ≤ N }
    ensures put { out.new ≡ out.old ++ rev_text x }
    ensures upper_bound { length out.new ≤ length out.old + 9 }
{
    if x != 0 {
        out.put(b" (rev ");
        put_pair(out, x);
        out.put(b")");
    }
}

// Vendor and device.
#[tactic(auto, unfolding(crate::specs::Head::ids_text))]
fn put_ids<const N: usize>(out: &mut Text<N>, b: &[u8; 256])
    requires { length out.old + 9 ≤ N }
    ensures put { out.new ≡ out.old ++ ids_text b.now }
    ensures long { length out.new ≡ length out.old + 9 }
{
    put_word(out, b, 0x00);
    out.put(b":");
    put_word(out, b, 0x02);
}

// The head line, without its LF.
#[tactic(auto, unfolding(crate::specs::Head::head_text))]
pub fn put_head<const N: usize>(out: &mut Text<N>, b: &[u8; 256])
    requires { length out.old + 32 ≤ N }
    ensures put { out.new ≡ out.old ++ head_text b.now }
    ensures upper_bound { length out.new ≤ length out.old + 32 }
{
    out.put(b"00:02.0 ");
    put_word(out, b, 0x0A);
    out.put(b": ");
    put_ids(out, b);
    put_rev(out, b[0x08]);
}
