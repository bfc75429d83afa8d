// An input split at LF, for any machine that answers lines: where a line ends, and what is kept of an unfinished one.
#![tactic(auto)]

ghost use Rattle.std.specs.Prelude.{◌≡◌, min, ◌-◌, ◌+◌, ◌≤◌, length, take, drop};
ghost use Rattle.session.specs.Session.{run_of};

use memchr::memchr;

// Where the line from `a` ends: at its LF, or at the end of the text.
pub fn line_end(s: &[u8], a: usize) -> usize
    requires { a ≤ length s.now }
    ensures { (result ≡ a + run_of (drop a s.now)) × (result ≤ length s.now) }
{
    // an empty line needs no search
    if a < s.len() && s[a] == b'\n' {
        return a;
    }
    match memchr(b'\n', &s[a..]) {
        Some(i) => a + i,
        None => s.len(),
    }
}

// The first `most` bytes of the unfinished line are moved to the front.
pub fn keep_first(s: &mut [u8], from: usize, to: usize, most: usize) -> usize
    requires { (from ≤ to) × (to ≤ length s.old) }
    ensures { (result ≤ most) × (length s.new ≡ length s.old) × (result ≡ min most (to - from)) × (take result s.new ≡ take result (drop from s.old)) }
{
    let n = most.min(to - from);
    s.copy_within(from..from + n, 0);
    n
}
