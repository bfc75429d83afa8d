// The window inside GTTMMADR, over a state by value: guest read and write.
#![tactic(auto)]

ghost use Rattle.std.specs.Prelude.{◌≡◌};
ghost use Rattle.answer.specs.Refusals.{fine, no, WINDOW_OFFSET};
ghost use Rattle.answer.specs.Said.{says};
ghost use Rattle.access.specs.Access.{admit, admits};
ghost use Rattle.plain.specs.Plain.{lane_value};
ghost use Rattle.rules.specs.Answers.{stepped};
ghost use Rattle.rules.specs.Window.{bad_window, window_read_bit, window_step_of, requested, acknowledged, window_written, window_read_of, window_write_of};
ghost use Rattle.mmio.specs.Shown.{shown_of};

use answer::{Answer, Refusal, Stepped};
use rules::{Mapped, State};

// ---- the registers, by their offsets

pub const FAULT_REG: u32 = 0x04094;

pub const ASSRREQ: u32 = 0x0810C;

pub const MTOUUD: u32 = 0x108080;

pub const MTOUUD_HIGH: u32 = 0x108084;

pub const MBDSM: u32 = 0x1080C0;

pub const DRAM_CYCLES: u32 = 0x138078;

// Above the window's last dword, or not a multiple of 4.
pub fn bad_offset(o: u32) -> bool
    ensures { result ≡ bad_window o }
{
    if 0x3FFFFF < o {
        return true;
    }
    o % 4 != 0
}

// What is asked of an access in the window.
fn admitted(offset: u32, lanes: u32) -> Result<(), Refusal>
    ensures { admits result ≡ admit (bad_window offset) WINDOW_OFFSET lanes no fine }
{
    access::admit(bad_offset(offset), Refusal::WindowOffset, lanes)
}

// ---- a guest read

// The dword at an offset: ASSRREQ's mask reads 0, and so does any other offset.
#[tactic(auto, using(bits::proofs::Tests::tests), unfolding(crate::specs::Shown::shown_of))]
fn shown(w: Mapped, o: u32) -> u32
    ensures { result ≡ shown_of w o }
{
    if o == FAULT_REG {
        return w.fault;
    }
    if o == ASSRREQ {
        return w.assrreq % 65536;
    }
    if o == MTOUUD {
        return w.mtouud;
    }
    if o == MTOUUD_HIGH {
        return w.mtouudh;
    }
    if o == MBDSM {
        return w.mbdsm;
    }
    if o == DRAM_CYCLES {
        return w.cycles;
    }
    0
}

// The enabled bytes of the dword at an offset, ones while busy and in the other lanes.
#[tactic(auto, using(rules::proofs::WindowRuns::all_ones, crate::proofs::Bridge::value_is))]
fn value(s: State, o: u32, lanes: u32) -> u32
    ensures { result ≡ lane_value (window_read_bit s o) lanes }
{
    if s.flags.busy != 0 {
        return 0xFFFFFFFF;
    }
    let w = s.window;
    plain::driven(lanes, shown(w, o))
}

#[tactic(auto, using(crate::proofs::Entry::read_refused, crate::proofs::Entry::read_made))]
pub fn read(s: State, offset: u32, lanes: u32) -> Answer
    ensures { says result ≡ window_read_of s offset lanes }
{
    admitted(offset, lanes)?;
    Ok(Some(value(s, offset, lanes)))
}

// ---- a guest write

// ASSRREQ: of bits 3:0 those are set that are written 1 with the mask bit 16 higher, both in enabled lanes.
#[tactic(auto, using(bits::proofs::Below::both_off, crate::proofs::Bridge::bit_first, crate::proofs::Bridge::request_off, crate::proofs::Bridge::request_on))]
fn request(x: u32, lanes: u32, value: u32) -> u32
    ensures { result ≡ requested x lanes value }
{
    if lanes % 2 == 0 {
        return x;
    }
    if lanes / 4 % 2 == 0 {
        return x;
    }
    let asked = bits::blend32(value, 0, value / 65536);
    bits::blend32(15, x, bits::blend32(asked, x, 15))
}

// FAULT_REG: lane 0 enabled and bit 0 zero clears it all.
#[tactic(auto, using(crate::proofs::Bridge::bit_first), unfolding(rules::specs::Window::acknowledged))]
fn acknowledge(x: u32, lanes: u32, value: u32) -> u32
    ensures { result ≡ acknowledged x lanes value }
{
    if lanes % 2 == 0 {
        return x;
    }
    if value % 2 == 0 {
        return 0;
    }
    x
}

#[tactic(auto, using(bits::proofs::Tests::tests), unfolding(rules::specs::Window::window_written))]
fn written(w: Mapped, o: u32, lanes: u32, value: u32) -> Mapped
    ensures { result ≡ window_written w o lanes value }
{
    let mut t = w;
    if o == FAULT_REG {
        t.fault = acknowledge(t.fault, lanes, value);
        return t;
    }
    if o == ASSRREQ {
        t.assrreq = request(t.assrreq, lanes, value);
        return t;
    }
    t
}

// A write that is accepted; while busy it is dropped.
#[tactic(auto, unfolding(rules::specs::Window::window_step_of))]
fn taken(s: State, o: u32, lanes: u32, value: u32) -> State
    ensures { result ≡ window_step_of s o lanes value }
{
    let mut t = s;
    if t.flags.busy == 0 {
        let w = t.window;
        t.window = written(w, o, lanes, value);
    }
    t
}

// A guest write of the enabled bytes of `value` to the dword at `offset`.
#[tactic(auto, using(crate::proofs::Entry::write_refused, crate::proofs::Entry::write_made))]
pub fn write(s: State, offset: u32, lanes: u32, value: u32) -> Stepped<State>
    ensures { stepped result ≡ window_write_of s offset lanes value }
{
    match admitted(offset, lanes) {
        Err(r) => Stepped {
            answer: Err(r),
            state: s,
        },
        Ok(()) => Stepped {
            answer: Ok(None),
            state: taken(s, offset, lanes, value),
        },
    }
}
