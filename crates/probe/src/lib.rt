// The size probe: what a base register's readback says of its range.
#![tactic(auto)]

ghost use Rattle.std.specs.Prelude.{◌≡◌};
ghost use Rattle.probe.specs.Probe.{probe_of, probe_says};

// A range of its kind, with the exponent of its size.
#[derive(Clone, Copy, Debug, PartialEq, Eq)]
pub enum Range {
    Io(u32),
    Memory32(u32),
    Memory64(u32),
}

// `low` and `high` are the dwords read back after ones were written; none where no counted bit is 1.
#[tactic(auto, using(bits::proofs::Tests::tests), unfolding(crate::specs::Probe::probe_of))]
pub fn probe(low: u32, high: u32) -> Option<Range>
    ensures { probe_says result ≡ probe_of low high }
{
    if low % 2 == 1 {
        let m = low / 4 * 4;
        if m == 0 {
            return None;
        }
        return Some(Range::Io(u32::trailing_zeros(m)));
    }
    if low % 8 == 0 {
        let m = low / 16 * 16;
        if m == 0 {
            return None;
        }
        return Some(Range::Memory32(u32::trailing_zeros(m)));
    }
    if low % 8 == 4 {
        let m = (high as u64) * 4294967296 + (low / 16 * 16) as u64;
        if m == 0 {
            return None;
        }
        return Some(Range::Memory64(u64::trailing_zeros(m)));
    }
    None
}
