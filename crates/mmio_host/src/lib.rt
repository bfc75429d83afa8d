// The host's changes in the window inside GTTMMADR, over a state by value.
#![tactic(auto)]

ghost use Rattle.std.specs.Prelude.{◌≡◌};
ghost use Rattle.rules.specs.Answers.{stepped};
ghost use Rattle.rules.specs.Window.{beyond, masked, faulted, mirror_mask, mirrored, complete_of, fault_of, cycles_of, mirror_update_of};

use answer::{Answer, Refusal, Stepped};
use rules::{Mapped, State};

// Whether a bit of `m` is outside the mask.
fn outside(mask: u32, m: u32) -> bool
    ensures { result ≡ beyond mask m }
{
    bits::blend32(mask, m, 0) != 0
}

// Bits of the register under the mask take the value's bits.
fn masked(x: u32, m: u32, value: u32) -> u32
    ensures { result ≡ masked x m value }
{
    bits::blend32(m, x, value)
}

// The host has completed requests: the bits of ASSRREQ under `mask` are cleared.
pub fn complete(s: State, mask: u32) -> Stepped<State>
    ensures { stepped result ≡ complete_of s mask }
{
    let mut t = s;
    if outside(0xF, mask) {
        return Stepped {
            answer: Err(Refusal::NotHost),
            state: t,
        };
    }
    let x = masked(t.window.assrreq, mask, 0);
    t.window.assrreq = x;
    Stepped {
        answer: Ok(None),
        state: t,
    }
}

// FAULT_REG: the word is stored with valid set, where valid is 0.
fn kept(x: u32, word: u32) -> u32
    ensures { result ≡ faulted x word }
{
    if x % 2 == 0 {
        return bits::blend32(1, word, 1);
    }
    x
}

// The host gives a fault word; it is lost where a fault is held.
pub fn fault(s: State, word: u32) -> Stepped<State>
    ensures { stepped result ≡ fault_of s word }
{
    let mut t = s;
    if outside(0x77FE, word) {
        return Stepped {
            answer: Err(Refusal::NotHost),
            state: t,
        };
    }
    let x = kept(t.window.fault, word);
    t.window.fault = x;
    Stepped {
        answer: Ok(None),
        state: t,
    }
}

// The host adds a count to the cycle sum, which wraps past 32 bits.
#[tactic(auto, unfolding(rules::specs::Window::cycles_of))]
pub fn add_cycles(s: State, count: u32) -> State
    ensures { result ≡ cycles_of s count }
{
    let mut t = s;
    let x = t.window.cycles.wrapping_add(count);
    t.window.cycles = x;
    t
}

// The bits of a mirror that the device drives.
fn mask_at(o: u32) -> u32
    ensures { result ≡ mirror_mask o }
{
    if o == mmio::MTOUUD {
        return 0xFFF00001;
    }
    if o == mmio::MTOUUD_HIGH {
        return 0x7F;
    }
    if o == mmio::MBDSM {
        return 0xFFF00001;
    }
    0
}

fn mirror(w: Mapped, o: u32, m: u32, value: u32) -> Mapped
    ensures { result ≡ mirrored w o m value }
{
    let mut t = w;
    if o == mmio::MTOUUD {
        t.mtouud = masked(t.mtouud, m, value);
        return t;
    }
    if o == mmio::MTOUUD_HIGH {
        t.mtouudh = masked(t.mtouudh, m, value);
        return t;
    }
    if o == mmio::MBDSM {
        t.mbdsm = masked(t.mbdsm, m, value);
        return t;
    }
    t
}

// The device's own change of the bits under `mask`, in the mirror at `offset`.
pub fn mirror_update(s: State, offset: u32, mask: u32, value: u32) -> Stepped<State>
    ensures { stepped result ≡ mirror_update_of s offset mask value }
{
    let mut t = s;
    if mmio::bad_offset(offset) {
        return Stepped {
            answer: Err(Refusal::WindowOffset),
            state: t,
        };
    }
    if outside(mask_at(offset), mask) {
        return Stepped {
            answer: Err(Refusal::NotHost),
            state: t,
        };
    }
    let w = t.window;
    t.window = mirror(w, offset, mask, value);
    Stepped {
        answer: Ok(None),
        state: t,
    }
}
