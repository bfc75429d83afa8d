// The port pair CF8h and CFCh, over a state by value.
#![tactic(auto)]

ghost use Rattle.std.specs.Prelude.{◌≡◌, false, ◌+◌, ◌%◌, ◌^◌, ◌<◌, ◌≤◌};
ghost use Rattle.rules.specs.Ports.{bad_width, at_latch, at_data, not_ours, other_function, here, latch_of, port_lanes, placed, port_read_of, port_write_of};
ghost use Rattle.answer.specs.Said.{says};
ghost use Rattle.rules.specs.Answers.{stepped};
ghost use Rattle.ports.specs.Part.{part_of};

use answer::{Answer, Refusal, Stepped};
use rules::State;

const ADDRESS: u16 = 0xCF8;

const DATA: u16 = 0xCFC;

// ---- which access

// A width may be any number, and all but three are refused; inside it is a `Part`'s.
fn bad_width(width: u32) -> bool
    ensures { result ≡ bad_width width }
{
    if width == 1 {
        return false;
    }
    if width == 2 {
        return false;
    }
    if width == 4 {
        return false;
    }
    true
}

fn at_latch(port: u16, width: u32) -> bool
    ensures { result ≡ at_latch port width }
{
    if port == ADDRESS {
        if width == 4 {
            return true;
        }
    }
    false
}

// The sum is made at 64 bits, where it cannot wrap.
fn at_data(port: u16, width: u32) -> bool
    ensures { result ≡ at_data port width }
{
    if DATA <= port {
        if (port as u64) + (width as u64) <= 0xD00 {
            return true;
        }
    }
    false
}

fn not_ours(latch: u32, port: u16, width: u32) -> bool
    ensures { result ≡ not_ours latch port width }
{
    if at_latch(port, width) {
        return false;
    }
    if at_data(port, width) {
        if latch / 2147483648 % 2 == 0 {
            return true;
        }
        return false;
    }
    true
}

fn other_function(latch: u32) -> bool
    ensures { result ≡ other_function here latch }
{
    if latch / 65536 % 256 == 0 {
        if latch / 2048 % 32 == 2 {
            if latch / 256 % 8 == 0 {
                return false;
            }
        }
    }
    true
}

// ---- w bytes of a dword, from byte a

// 256 to the a.
fn scale(a: u32) -> u32
    requires { a < 4 }
    ensures { result ≡ 256 ^ a }
{
    if a == 0 {
        return 1;
    }
    if a == 1 {
        return 256;
    }
    if a == 2 {
        return 65536;
    }
    16777216
}

// Which bytes of the dword an access at the data port is for: `width` of them, from byte `first` on.
#[derive(Clone, Copy)]
struct Part {
    first: u32,
    width: u32,
    ghost wide: { bad_width width ≡ false },
    ghost within: { first + width ≤ 4 },
}

impl Part {
    // As many bytes, the low ones.
    #[tactic(auto, using(crate::proofs::Widths::wide_4))]
    fn low(self, v: u32) -> u32
        ensures { result ≡ v % 256 ^ self.width }
    {
        let w = self.width;
        if w == 1 {
            return v % 256;
        }
        if w == 2 {
            return v % 65536;
        }
        v
    }

    // The low bytes of v, put there.
    fn place(self, v: u32) -> u32
        ensures { result ≡ placed v self.first self.width }
    {
        self.low(v) * scale(self.first)
    }

    // These bytes of d, as a number.
    fn of(self, d: u32) -> u32
        ensures { result ≡ part_of d self.first self.width }
    {
        self.low(d / scale(self.first))
    }

    // 2 to the first, times so many ones.
    fn lanes(self) -> u32
        ensures { result ≡ port_lanes self.first self.width }
    {
        let a = self.first;
        let w = self.width;
        if w == 4 {
            return 15;
        }
        if w == 2 {
            if a == 0 {
                return 3;
            }
            if a == 1 {
                return 6;
            }
            return 12;
        }
        if a == 0 {
            return 1;
        }
        if a == 1 {
            return 2;
        }
        if a == 2 {
            return 4;
        }
        8
    }
}

// The latch that a write of `value` leaves: bits 30:24 and 1:0 are zero.
fn latched(value: u32) -> u32
    ensures { result ≡ latch_of value }
{
    bits::blend32(0x80FFFFFC, 0, value)
}

// ---- the entries

// Both ask the same four things first. One function for them would answer a part, the latch or a refusal, with a law that brings that to either definition: more text than the tests.

// A read of `width` bytes at `port`.
#[tactic(auto, using(crate::proofs::Data::data_fits), unfolding(rules::specs::Ports::port_read_of))]
pub fn port_read(s: State, port: u16, width: u32) -> Answer
    ensures { says result ≡ port_read_of s port width }
{
    let latch = s.latch;
    if bad_width(width) {
        return Err(Refusal::Width);
    }
    if not_ours(latch, port, width) {
        return Err(Refusal::NotOurs);
    }
    if at_latch(port, width) {
        return Ok(Some(latch));
    }
    if other_function(latch) {
        return Err(Refusal::OtherFunction);
    }
    let t = s;
    let whole = guest_read::dword(&t.bytes, t.flags.busy, (latch / 4 % 64) as u8);
    let part = Part {
        first: (port % 4) as u32,
        width,
    };
    Ok(Some(part.of(whole)))
}

// A write of the low `width` bytes of `value` at `port`.
#[tactic(auto, using(crate::proofs::Data::data_fits), unfolding(rules::specs::Ports::port_write_of))]
pub fn port_write(s: State, port: u16, width: u32, value: u32) -> Stepped<State>
    ensures { stepped result ≡ port_write_of s port width value }
{
    let latch = s.latch;
    if bad_width(width) {
        return Stepped {
            answer: Err(Refusal::Width),
            state: s,
        };
    }
    if not_ours(latch, port, width) {
        return Stepped {
            answer: Err(Refusal::NotOurs),
            state: s,
        };
    }
    if at_latch(port, width) {
        let mut t = s;
        t.latch = latched(value);
        return Stepped {
            answer: Ok(None),
            state: t,
        };
    }
    if other_function(latch) {
        return Stepped {
            answer: Err(Refusal::OtherFunction),
            state: s,
        };
    }
    let part = Part {
        first: (port % 4) as u32,
        width,
    };
    let w = twin::write(s, latch / 4 % 64 * 4, part.lanes(), part.place(value));
    let t = w.state;
    Stepped {
        answer: Ok(None),
        state: t,
    }
}
