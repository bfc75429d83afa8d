// The capability walk, over the 256 bytes of a function as a guest reads them.
#![tactic(auto)]

ghost use Rattle.std.specs.Prelude.{◌≡◌, length};
ghost use Rattle.walk.specs.Walk.{walk_of, walk_says, walk_from, most};

// How a walk ends: refused for its buffer's length, absent, a bad pointer, endless, or found at an offset. Paper 01 names these cases, and the loop below that yields them by break, with its count.
#[derive(Clone, Copy)]
pub enum Found {
    Length,
    Absent,
    Pointer,
    Endless,
    At(u8),
}

// The end, and the number of items visited, the found one included.
#[derive(Clone, Copy)]
pub struct Walked {
    pub found: Found,
    pub count: u32,
}

// Items that may be visited.
const MOST: u32 = 48;

// From the pointer `first` on. The two low bits of a pointer are dropped before any test.
fn items(s: &[u8], want: u8, first: u8) -> Walked
    requires { length s.now ≡ 256 }
    ensures { walk_says result ≡ walk_from most s.now want first 0 }
{
    let mut p = first;
    let mut n: u32 = 0;
    let found = loop {
        let at = p / 4 * 4;
        if at == 0 {
            break Found::Absent;
        }
        if at < 0x40 {
            break Found::Pointer;
        }
        if n == MOST {
            break Found::Endless;
        }
        n += 1;
        let i = at as usize;
        if s[i] == want {
            break Found::At(at);
        }
        p = s[i + 1];
    };
    Walked { found, count: n }
}

// The item with the ID `want`.
#[tactic(auto, using(bits::proofs::Tests::tests), unfolding(crate::specs::Walk::walk_of))]
pub fn walk(s: &[u8], want: u8) -> Walked
    ensures { walk_says result ≡ walk_of s.now want }
{
    if s.len() != 256 {
        return Walked {
            found: Found::Length,
            count: 0,
        };
    }
    if s[map::PCISTS2] / 16 % 2 == 0 {
        return Walked {
            found: Found::Absent,
            count: 0,
        };
    }
    items(s, want, s[map::CAPPOINT])
}
