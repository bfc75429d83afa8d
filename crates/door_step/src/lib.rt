// One function for every operation, over a lent record.
#![tactic(auto)]

ghost use Rattle.std.specs.Prelude.{◌≡◌, Some};
ghost use Rattle.asked.specs.Asked.{response_of};
ghost use Rattle.door_told.specs.Heard.{heard};
ghost use Rattle.door_write.specs.Outside.{outside, outside_of};
ghost use Rattle.door_step.specs.Door.{door_of};

use answer::Refusal;
use asked::Asked;
use rules::{Event, State};

// An event: a guest's write and read in place, since they are most of a session, and the end signal, since a driver's poll goes over it.
fn event_told(s: &mut State, e: Event) -> u64
    ensures { outside (heard result) s.new ≡ outside_of (response_of (Some (Asked.Event e)) s.old) }
{
    match e {
        Event::Write(o, l, v) => door_write::write_told(s, o, l, v),
        Event::Read(o, l) => {
            door_write::bytes_fit(&s.bytes);
            door_told::read(&s.bytes, s.flags.busy, o, l)
        }
        Event::EndSignal => {
            function_reset::end(&mut s.bytes, &mut s.flags);
            door_told::answered(Ok(None))
        }
        _ => door_copy::step_told(s, e),
    }
}

// What is told outside to whatever is asked.
fn ask(s: &mut State, q: Option<Asked>) -> u64
    ensures { outside (heard result) s.new ≡ outside_of (response_of q s.old) }
{
    match q {
        Some(Asked::Event(e)) => event_told(s, e),
        Some(Asked::Look(k)) => door_copy::look_told(s, k),
        None => door_told::answered(Err(Refusal::Line)),
    }
}

// The operation of that number.
#[tactic(auto, unfolding(crate::specs::Door::door_of))]
pub fn operate(s: &mut State, op: u32, a: u32, b: u32, c: u32) -> u64
    ensures { outside (heard result) s.new ≡ door_of s.old op a b c }
{
    ask(s, door_table::asked_at(op, a, b, c))
}
