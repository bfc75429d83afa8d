// The end of a function reset, over 256 bytes that are lent; and the flags and the window of the fresh state.
#![tactic(auto)]

ghost use Rattle.std.specs.Prelude.{◌≡◌};
ghost use Rattle.rules.specs.Fresh.{fresh_flags, fresh_window};
ghost use Rattle.function_reset.specs.Bytes.{reset_bytes, end_bytes, end_flags};

use rules::{Flags, Mapped};

// F bits return to default, and so does the bit that starts the reset.
fn reset(m: &mut [u8; 256])
    ensures { m.new ≡ reset_bytes m.old }
{
    let masks = map::all_resets();
    let defaults = map::all_defaults();
    plain::reset(m, &masks, &defaults);
}

// The host's end signal. Where no function reset is under way nothing changes.
#[tactic(auto, unfolding(crate::specs::Bytes::end_bytes, crate::specs::Bytes::end_flags))]
pub fn end(m: &mut [u8; 256], c: &mut Flags)
    ensures m_after { m.new ≡ end_bytes c.old m.old }
    ensures c_after { c.new ≡ end_flags c.old }
{
    if c.busy != 0 {
        reset(m);
        c.busy = 0;
    }
}

// What a platform reset leaves of the flags: the write-once fields open, no function reset under way.
pub fn fresh_flags() -> Flags
    ensures { result ≡ fresh_flags }
{
    Flags {
        svid2: 0,
        sid2: 0,
        swsci15: 0,
        busy: 0,
    }
}

// And of the window: it is clear.
pub fn fresh_window() -> Mapped
    ensures { result ≡ fresh_window }
{
    Mapped {
        fault: 0,
        assrreq: 0,
        mtouud: 0,
        mtouudh: 0,
        mbdsm: 0,
        cycles: 0,
    }
}
