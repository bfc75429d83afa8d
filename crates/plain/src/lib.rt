// The plain rule over 256 bytes that are lent: the lanes of a read, a store under four masks, a return to default under a table of masks.
// The built-in function and a sheet's device both go through here, each with masks of its own.
#![tactic(auto)]

ghost use Rattle.std.specs.Prelude.{◌≡◌, ◌+◌, ◌<◌};
ghost use Rattle.bits.specs.Places.{put4_of};
ghost use Rattle.plain.specs.Bytes.{spread_of, driven_of, if_enabled, lane_of, stored_of, returned_of};

// ---- a read

// The mask of the enabled lanes.
#[tactic(auto, unfolding(crate::specs::Bytes::spread_of))]
fn spread(lanes: u32) -> u32
    ensures { result ≡ spread_of lanes }
{
    lanes % 2 * 255 + lanes / 2 % 2 * 65280 + lanes / 4 % 2 * 16711680 + lanes / 8 % 2 * 4278190080
}

// What a bus that pulls its lanes high shows where none is enabled.
const UNDRIVEN: u32 = 4294967295;

// The enabled bytes of a dword, FF in the other lanes.
#[tactic(auto, using(crate::proofs::Bridge::blended_is))]
pub fn driven(lanes: u32, dword: u32) -> u32
    ensures { result ≡ driven_of lanes dword }
{
    bits::blend32(spread(lanes), UNDRIVEN, dword)
}

// ---- a store

#[tactic(auto, using(bits::proofs::Tests::tests), unfolding(crate::specs::Bytes::if_enabled))]
fn if_enabled(on: u32, mask: u8) -> u8
    ensures { result ≡ if_enabled on mask }
{
    if on == 1 { mask } else { 0 }
}

// What one byte holds afterwards: `on` is its lane, `mask` the bits that take what is written.
#[tactic(auto, unfolding(crate::specs::Bytes::lane_of))]
fn lane(on: u32, mask: u8, old: u8, w: u8) -> u8
    ensures { result ≡ lane_of on mask old w }
{
    bits::blend(if_enabled(on, mask), old, w)
}

fn put4(m: &mut [u8; 256], o: usize, b0: u8, b1: u8, b2: u8, b3: u8)
    requires { o + 3 < 256 }
    ensures { m.new ≡ put4_of m.old o b0 b1 b2 b3 }
{
    m[o] = b0;
    m[o + 1] = b1;
    m[o + 2] = b2;
    m[o + 3] = b3;
}

// The enabled bytes of `value` at the dword at `o`, each under its mask. Numbers, and no `Admitted`, which would ask more than that the dword lies within the bytes.
#[tactic(auto, unfolding(crate::specs::Bytes::stored_of))]
pub fn store(m: &mut [u8; 256], o: usize, lanes: u32, value: u32, k0: u8, k1: u8, k2: u8, k3: u8)
    requires { o + 3 < 256 }
    ensures { m.new ≡ stored_of m.old o lanes value k0 k1 k2 k3 }
{
    let w = value.to_le_bytes();
    let b0 = lane(lanes % 2, k0, m[o], w[0]);
    let b1 = lane(lanes / 2 % 2, k1, m[o + 1], w[1]);
    let b2 = lane(lanes / 4 % 2, k2, m[o + 2], w[2]);
    let b3 = lane(lanes / 8 % 2, k3, m[o + 3], w[3]);
    put4(m, o, b0, b1, b2, b3);
}

// ---- a return to default

// In each byte, the bits that the table of masks has take the default's.
pub fn reset(m: &mut [u8; 256], masks: &[u8; 256], defaults: &[u8; 256])
    ensures { m.new ≡ returned_of masks.now defaults.now m.old }
{
    for i in 0..256 {
        m[i] = bits::blend(masks[i], m[i], defaults[i]);
    }
}
