// A guest read, over 256 bytes that are lent, with the flag that a function reset is under way.
#![tactic(auto)]

ghost use Rattle.std.specs.Prelude.{◌≡◌, ◌+◌, ◌*◌, ◌%◌, ◌<◌};
ghost use Rattle.rules.specs.Access.{up};
ghost use Rattle.answer.specs.Said.{says};
ghost use Rattle.guest_read.specs.Shown.{shown_byte, shown_dword, shown_bytes, read_dword, read_lanes, image_bytes};

use answer::Answer;

// ---- as the bytes are shown while no function reset is under way

// CAPPOINT is computed from CAPL.
#[tactic(auto, using(bits::proofs::Tests::tests), unfolding(crate::specs::Shown::shown_byte))]
fn shown(m: &[u8; 256], i: usize) -> u8
    requires { i < 256 }
    ensures { result ≡ shown_byte m.now i }
{
    if i == map::CAPPOINT {
        let c = m[map::CAPL];
        if c % 2 == 1 {
            return 0xD0;
        }
        return 0x90;
    }
    m[i]
}

#[tactic(auto, unfolding(crate::specs::Shown::shown_dword))]
fn shown_dword(m: &[u8; 256], o: usize) -> u32
    requires { o + 3 < 256 }
    ensures { result ≡ shown_dword m.now o }
{
    bits::join(
        shown(m, o),
        shown(m, o + 1),
        shown(m, o + 2),
        shown(m, o + 3),
    )
}

#[tactic(auto, unfolding(crate::specs::Shown::shown_bytes))]
fn shown_image(m: &[u8; 256]) -> [u8; 256]
    ensures { result ≡ shown_bytes m.now }
{
    let mut t = *m;
    t[map::CAPPOINT] = shown(m, map::CAPPOINT);
    t
}

// ---- as a guest reads: ones while busy; of an access or of a port's dword, so by its place

#[tactic(auto, using(bits::proofs::Tests::tests), unfolding(crate::specs::Shown::read_dword))]
fn dword_at(m: &[u8; 256], busy: u8, o: usize) -> u32
    requires { o + 3 < 256 }
    ensures { result ≡ read_dword (up busy) m.now o }
{
    if busy != 0 {
        return 0xFFFFFFFF;
    }
    shown_dword(m, o)
}

// The dword of number `d`, counted modulo 64, as a guest reads it.
pub fn dword(m: &[u8; 256], busy: u8, d: u8) -> u32
    ensures { result ≡ read_dword (up busy) m.now (d % 64 * 4) }
{
    let o = (d % 64 * 4) as usize;
    dword_at(m, busy, o)
}

// The enabled bytes of the dword at `offset`, FF in the other lanes.
#[tactic(auto, using(crate::proofs::Entry::read_refused, crate::proofs::Entry::read_made))]
pub fn read(m: &[u8; 256], busy: u8, offset: u32, lanes: u32) -> Answer
    ensures { says result ≡ read_lanes (up busy) m.now offset lanes }
{
    let a = access::direct(offset, lanes)?;
    Ok(Some(plain::driven(a.lanes, dword_at(m, busy, a.offset))))
}

// The 256 bytes as a guest reads them.
#[tactic(auto, using(bits::proofs::Tests::tests), unfolding(crate::specs::Shown::image_bytes))]
pub fn image(m: &[u8; 256], busy: u8) -> [u8; 256]
    ensures { result ≡ image_bytes (up busy) m.now }
{
    if busy != 0 {
        return [0xFF; 256];
    }
    shown_image(m)
}
