// What a caller outside is told: a refusal's number, or 0, and a value; and both in one number.
#![tactic(auto)]

ghost use Rattle.std.specs.Prelude.{◌≡◌, ◌+◌, ◌*◌, ◌^◌};
ghost use Rattle.answer.specs.Said.{number_of, says};
ghost use Rattle.rules.specs.Answers.{claim_says};
ghost use Rattle.rules.specs.Access.{up};
ghost use Rattle.guest_read.specs.Shown.{read_lanes};
ghost use Rattle.probe.specs.Probe.{probe_of, probe_says};
ghost use Rattle.walk.specs.Walk.{walk_of, says_of};
ghost use Rattle.asked.specs.Asked.{answer, claim, range, item, shown_says};
ghost use Rattle.door_told.specs.Heard.{heard, accepted, refused, heard_of, parts};

use answer::{Answer, Refusal};
use asked::Shown;
use probe::Range;
use rules::Claim;
use walk::Found;

// A refusal's number, or 0, and the two halves of a value.
#[derive(Clone, Copy)]
pub struct Parts {
    pub number: u16,
    pub high: u16,
    pub low: u32,
}

fn ok(high: u16, low: u32) -> Parts
    ensures { parts result ≡ accepted (high * 2 ^ 32 + low) }
{
    Parts {
        number: 0,
        high,
        low,
    }
}

fn no(n: Refusal, low: u32) -> Parts
    ensures { parts result ≡ refused (number_of n) low }
{
    Parts {
        number: answer::number(n) as u16,
        high: 0,
        low,
    }
}

// ---- what is told of an answer, and of each look

#[tactic(auto, unfolding(crate::specs::Heard::heard_of))]
fn answer_told(a: Answer) -> Parts
    ensures { parts result ≡ heard_of (answer (says a)) }
{
    match a {
        Ok(None) => ok(0, 0),
        Ok(Some(v)) => ok(0, v),
        Err(n) => no(n, 0),
    }
}

#[tactic(auto, unfolding(crate::specs::Heard::heard_of))]
fn claim_told(a: Option<Claim>) -> Parts
    ensures { parts result ≡ heard_of (claim (claim_says a)) }
{
    match a {
        Some(Claim::Translation(o)) => ok(1, o),
        Some(Claim::Aperture(o)) => ok(2, o),
        Some(Claim::Io(o)) => ok(3, o),
        None => ok(0, 0),
    }
}

#[tactic(auto, unfolding(crate::specs::Heard::heard_of))]
fn probe_told(a: Option<Range>) -> Parts
    ensures { parts result ≡ heard_of (range (probe_says a)) }
{
    match a {
        Some(Range::Io(e)) => ok(1, e),
        Some(Range::Memory32(e)) => ok(2, e),
        Some(Range::Memory64(e)) => ok(3, e),
        None => no(Refusal::NoRange, 0),
    }
}

// The count stands beside a refusal too, the one exception to zero.
#[tactic(auto, unfolding(crate::specs::Heard::heard_of))]
fn walk_told(f: Found, count: u32) -> Parts
    ensures { parts result ≡ heard_of (item (says_of f count)) }
{
    match f {
        Found::At(o) => ok(256 + (o as u16), count),
        Found::Absent => ok(0, count),
        Found::Length => no(Refusal::Length, count),
        Found::Pointer => no(Refusal::Pointer, count),
        Found::Endless => no(Refusal::Endless, count),
    }
}

fn shown_told(w: Shown) -> Parts
    ensures { parts result ≡ heard_of (shown_says w) }
{
    match w {
        Shown::Claimed(a) => claim_told(a),
        Shown::Range(a) => probe_told(a),
        Shown::Item(f, count) => walk_told(f, count),
    }
}

// ---- in one number: the refusal's above the value

fn packed(t: Parts) -> u64
    ensures { heard result ≡ parts t }
{
    (t.number as u64) * 281474976710656 + (t.high as u64) * 4294967296 + (t.low as u64)
}

pub fn answered(a: Answer) -> u64
    ensures { heard result ≡ heard_of (answer (says a)) }
{
    packed(answer_told(a))
}

pub fn showed(w: Shown) -> u64
    ensures { heard result ≡ heard_of (shown_says w) }
{
    packed(shown_told(w))
}

// ---- what needs no record, and a read

pub fn probe(low: u32, high: u32) -> u64
    ensures { heard result ≡ heard_of (range (probe_of low high)) }
{
    packed(probe_told(probe::probe(low, high)))
}

// Over any bytes.
pub fn walk(s: &[u8], want: u8) -> u64
    ensures { heard result ≡ heard_of (item (walk_of s.now want)) }
{
    let w = walk::walk(s, want);
    let f = w.found;
    packed(walk_told(f, w.count))
}

// Over the bytes and the flag that a function reset is under way.
pub fn read(m: &[u8; 256], busy: u8, offset: u32, lanes: u32) -> u64
    ensures { heard result ≡ heard_of (answer (read_lanes (up busy) m.now offset lanes)) }
{
    answered(guest_read::read(m, busy, offset, lanes))
}
