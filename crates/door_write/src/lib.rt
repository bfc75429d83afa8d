// A guest write over a lent record, where it lies: for the door, and for the record alone; and by value.
#![tactic(auto)]

ghost use Rattle.std.specs.Prelude.{ℕ, Some, ◌≡◌, ◌<◌, slice_index};
ghost use Rattle.answer.specs.Said.{says};
ghost use Rattle.rules.specs.Guest.{write_of};
ghost use Rattle.asked.specs.Asked.{response_of};
ghost use Rattle.door_told.specs.Heard.{heard};
ghost use Rattle.door_write.specs.Outside.{outcome, outside, outside_of};
ghost use Rattle.door_write.specs.Numbered.{numbered};
ghost use Rattle.answer.specs.Refusals as R;

use answer::Answer;
use asked::Asked;
use rules::{Event, State};

// What is lent are bytes: nothing is done, and the caller has it as a fact.
pub fn bytes_fit(m: &[u8])
    ensures { (i : ℕ) → slice_index m.now i < 256 }
{}

// The record's bytes and flags are lent on to the leaf: nothing is copied.
pub fn put(s: &mut State, offset: u32, lanes: u32, value: u32) -> Answer
    ensures { outcome (says result) s.new ≡ write_of s.old offset lanes value }
{
    bytes_fit(&s.bytes);
    let a = access::direct(offset, lanes)?;
    let guest = map::all_guests();
    guest_write::taken(&mut s.bytes, &guest, &mut s.flags, a, value);
    Ok(None)
}

// For the door: what is told, in one number.
pub fn write_told(s: &mut State, offset: u32, lanes: u32, value: u32) -> u64
    ensures { outside (heard result) s.new ≡ outside_of (response_of (Some (Asked.Event (Event.Write offset lanes value))) s.old) }
{
    let a = put(s, offset, lanes, value);
    door_told::answered(a)
}

// ---- by value

// The refusal's number, or 0, and the state afterwards: what an export to C hands on.
#[derive(Clone, Copy)]
pub struct Numbered {
    pub number: u32,
    pub state: State,
}

pub fn write(s: State, offset: u32, lanes: u32, value: u32) -> Numbered
    ensures { result ≡ numbered (write_of s offset lanes value) }
{
    let mut t = s;
    let w = put(&mut t, offset, lanes, value);
    Numbered {
        number: number(w),
        state: t,
    }
}

// An answer's number: the refusal's, or 0.
pub fn number(a: Answer) -> u32
    ensures { result ≡ R.number (says a) }
{
    match a {
        Ok(_) => 0,
        Err(r) => answer::number(r),
    }
}
