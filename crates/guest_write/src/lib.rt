// A guest write, over 256 bytes that are lent: a byte lane at a time, under the guest masks that are lent beside them.
#![tactic(auto)]

ghost use Rattle.std.specs.Prelude.{◌≡◌, ◌+◌, ◌%◌, ◌<◌};
ghost use Rattle.answer.specs.Refusals.{fine};
ghost use Rattle.answer.specs.Said.{says};
ghost use Rattle.rules.specs.Guest.{flags_after};
ghost use Rattle.guest_write.specs.Bytes.{stored_bytes, cleared_bytes, step_bytes, raised_of, lent, taken_bytes, write_lanes};

use access::Admitted;
use answer::Answer;
use rules::Flags;

// The dword that MSAC stands in.
const MSAC_DWORD: usize = map::MSAC / 4 * 4;

// ---- the store

fn store(m: &mut [u8; 256], guest: &[u8; 256], c: Flags, a: Admitted, value: u32)
    ensures { m.new ≡ stored_bytes guest.now c m.old a.offset a.lanes value }
{
    let o = a.offset;
    let code = m[map::MSAC] / 2 % 4;
    let w = value.to_le_bytes();
    let k0 = guest_lanes::reach(c, code, o, guest[o], w[0]);
    let k1 = guest_lanes::reach(c, code, o + 1, guest[o + 1], w[1]);
    let k2 = guest_lanes::reach(c, code, o + 2, guest[o + 2], w[2]);
    let k3 = guest_lanes::reach(c, code, o + 3, guest[o + 3], w[3]);
    plain::store(m, o, a.lanes, value, k0, k1, k2, k3);
}

// ---- what a write to MSAC does besides

// The bits of GMADR that the size code takes are cleared.
fn clear(m: &mut [u8; 256])
    ensures { m.new ≡ cleared_bytes m.old }
{
    let code = m[map::MSAC] / 2 % 4;
    m[guest_lanes::APERTURE] = bits::blend(guest_lanes::taken(code), m[guest_lanes::APERTURE], 0);
}

fn step(m: &mut [u8; 256], guest: &[u8; 256], c: Flags, a: Admitted, value: u32)
    ensures { m.new ≡ step_bytes guest.now c m.old a.offset a.lanes value }
{
    let o = a.offset;
    let lanes = a.lanes;
    store(m, guest, c, a, value);
    if o == MSAC_DWORD {
        if lanes / 4 % 2 == 1 {
            clear(m);
        }
    }
}

// ---- the flags

// A flag that a write to the dword at `at` raises, after a write to the dword at `o`, unless `hit` is 0. One that is up keeps its number.
fn raise(was: u8, o: usize, at: usize, hit: u32) -> u8
    ensures { result ≡ raised_of was o at hit }
{
    if o == at {
        if hit == 0 {
            return was;
        }
        if was == 0 {
            return 1;
        }
    }
    was
}

// A write-once field is closed by the lanes of its bytes; a function reset is started by bit 0 of AFCTL.
fn raises(c: Flags, a: Admitted, value: u32) -> Flags
    ensures { result ≡ flags_after a.offset a.lanes value c }
{
    let o = a.offset;
    let lanes = a.lanes;
    Flags {
        svid2: raise(c.svid2, o, map::SVID2, lanes % 4),
        sid2: raise(c.sid2, o, map::SVID2, lanes / 4),
        swsci15: raise(c.swsci15, o, map::SWSCI, lanes / 2 % 2),
        busy: raise(c.busy, o, map::AFCTL, lanes % 2 * (value % 2)),
    }
}

// ---- the entry

// A write that is accepted: while a function reset is under way it is dropped.
pub fn taken(m: &mut [u8; 256], guest: &[u8; 256], c: &mut Flags, a: Admitted, value: u32)
    ensures { lent fine m.new c.new ≡ taken_bytes guest.now c.old m.old a.offset a.lanes value }
{
    if c.busy != 0 {
        return;
    }
    step(m, guest, *c, a, value);
    *c = raises(*c, a, value);
}

// A guest write of the enabled bytes of `value` to the dword at `offset`; while a function reset is under way it is dropped.
#[tactic(auto, using(crate::proofs::Entry::write_refused, crate::proofs::Entry::write_made))]
pub fn write(
    m: &mut [u8; 256],
    guest: &[u8; 256],
    c: &mut Flags,
    offset: u32,
    lanes: u32,
    value: u32,
) -> Answer
    ensures { lent (says result) m.new c.new ≡ write_lanes guest.now c.old m.old offset lanes value }
{
    let a = access::direct(offset, lanes)?;
    taken(m, guest, c, a, value);
    Ok(None)
}
