// The size probe and the capability walk, each made and written to standard output as the paper writes it.
#![tactic(auto)]

use answer::Refusal;
use examples_print::Refused;
use probe::Range;
use rules::State;
use std::{fmt, io};
use walk::Found;

// What a probe says.
#[derive(Clone, Copy)]
struct Probed(Option<Range>);

impl fmt::Display for Probed {
    fn fmt<W: fmt::Write>(&self, f: &mut fmt::Formatter<W>) -> fmt::Result {
        match self.0 {
            Some(Range::Io(e)) => write!(f, ": I/O, exponent {e}"),
            Some(Range::Memory32(e)) => write!(f, ": 32-bit, exponent {e}"),
            Some(Range::Memory64(e)) => write!(f, ": 64-bit, exponent {e}"),
            None => write!(f, "{}", Refused(Refusal::NoRange)),
        }
    }
}

// `low` and `high` are the dwords read back.
pub fn size_probe<R: Print>(rt: &R, low: u32, high: u32) -> io::Result<()> {
    let probed = Probed(probe::probe(low, high));
    println!(rt; "probe {low:08X} {high:08X}{probed}")
}

// How a walk ends.
#[derive(Clone, Copy)]
struct Ended(Found);

impl fmt::Display for Ended {
    fn fmt<W: fmt::Write>(&self, f: &mut fmt::Formatter<W>) -> fmt::Result {
        match self.0 {
            Found::Length => write!(f, "{}", Refused(Refusal::Length)),
            Found::Absent => write!(f, ": absent"),
            Found::Pointer => write!(f, "{}", Refused(Refusal::Pointer)),
            Found::Endless => write!(f, "{}", Refused(Refusal::Endless)),
            Found::At(o) => write!(f, ": found {o:02X}"),
        }
    }
}

// Over the state's bytes: at a fresh state they are what a guest reads.
pub fn capability_walk<R: Print>(rt: &R, s: State, want: u8) -> io::Result<()> {
    let bytes = s.bytes;
    let w = walk::walk(&bytes, want);
    let ended = Ended(w.found);
    println!(rt; "walk for {want:02X}{ended}, count {}", w.count)
}
