// What a line of the console or a number of the door asks: that something happens, a look at what is there, or nothing; and what is then told. This crate has no code.
#![tactic(auto)]

use answer::Answer;
use probe::Range;
use rules::{Claim, Event, State};
use walk::Found;

// What only looks: which window claims a memory address or a port, the size that a probe's two dwords say, and where the capability list has an ID.
#[derive(Clone, Copy)]
pub enum Look {
    Memory(u64),
    Port(u16),
    Probe(u32, u32),
    Walk(u8),
}

// A line of no form, and a number that names no operation, ask none of them.
#[derive(Clone, Copy)]
pub enum Asked {
    Event(Event),
    Look(Look),
}

// What a look shows: a claim, a range, or how a walk ended and its count.
#[derive(Clone, Copy)]
pub enum Shown {
    Claimed(Option<Claim>),
    Range(Option<Range>),
    Item(Found, u32),
}

#[derive(Clone, Copy)]
pub enum Told {
    Answer(Answer),
    Shown(Shown),
}

// What is told, and the state afterwards.
#[derive(Clone, Copy)]
pub struct Replied {
    pub told: Told,
    pub state: State,
}
