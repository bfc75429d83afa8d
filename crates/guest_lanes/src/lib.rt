// Which guest bits of a byte a write reaches: the special rules hold bits back, the guest mask lets the others through.
#![tactic(auto)]

ghost use Rattle.std.specs.Prelude.{◌≡◌};
ghost use Rattle.guest_lanes.specs.Lane.{taken_mask, if_closed, held_of, reach_of};

use rules::Flags;

// Bits 31:24 of GMADR, which has the bits that a size code takes.
pub const APERTURE: usize = map::GMADR + 3;

// ---- which guest bits a write leaves

// The bits of byte `APERTURE` that a size code takes.
#[tactic(auto, using(bits::proofs::Tests::tests, crate::proofs::Masks::taken_is))]
pub fn taken(code: u8) -> u8
    ensures { result ≡ taken_mask code }
{
    if code == 3 {
        return 0x18;
    }
    if code == 1 {
        return 0x08;
    }
    0
}

#[tactic(auto, using(bits::proofs::Tests::tests), unfolding(crate::specs::Lane::if_closed))]
fn if_closed(flag: u8, mask: u8) -> u8
    ensures { result ≡ if_closed flag mask }
{
    if flag == 0 { 0 } else { mask }
}

// The guest bits of byte `i` that a write of `w` leaves as they are, by the rules of write-once fields, size code and power state.
#[tactic(auto, using(bits::proofs::Tests::tests, crate::proofs::Masks::helds))]
fn held(c: Flags, code: u8, i: usize, w: u8) -> u8
    ensures { result ≡ held_of c code w i }
{
    if i == APERTURE {
        return taken(code);
    }
    if i / 2 == map::SVID2 / 2 {
        return if_closed(c.svid2, 0xFF);
    }
    if i / 2 == map::SID2 / 2 {
        return if_closed(c.sid2, 0xFF);
    }
    if i == map::SWSCI + 1 {
        return if_closed(c.swsci15, 0x80);
    }
    if i == map::MSAC {
        if w / 2 % 4 == 2 {
            return 0x06;
        }
        return 0;
    }
    if i == map::PMCS {
        if w % 4 == 0 {
            return 0;
        }
        if w % 4 == 3 {
            return 0;
        }
        return 0x03;
    }
    0
}

// The guest bits of byte `i` that take what is written: `full` is its guest mask.
#[tactic(auto, unfolding(crate::specs::Lane::reach_of))]
pub fn reach(c: Flags, code: u8, i: usize, full: u8, w: u8) -> u8
    ensures { result ≡ reach_of c code i full w }
{
    bits::blend(held(c, code, i, w), full, 0)
}
