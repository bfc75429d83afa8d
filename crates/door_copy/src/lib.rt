// An event or a look over a copy of a lent record.
#![tactic(auto)]

ghost use Rattle.std.specs.Prelude.{◌≡◌, Some};
ghost use Rattle.asked.specs.Asked.{sight_of, response_of};
ghost use Rattle.door_told.specs.Heard.{heard, heard_of};
ghost use Rattle.door_write.specs.Outside.{outside, outside_of};

use answer::Stepped;
use asked::{Asked, Look};
use rules::{Event, State};

// What happens is told, and left in the record.
pub fn step_told(s: &mut State, e: Event) -> u64
    ensures { outside (heard result) s.new ≡ outside_of (response_of (Some (Asked.Event e)) s.old) }
{
    let Stepped { answer, state } = step::step(*s, e);
    *s = state;
    door_told::answered(answer)
}

// What a look shows.
pub fn look_told(s: &State, k: Look) -> u64
    ensures { heard result ≡ heard_of (sight_of k s.now) }
{
    door_told::showed(step::look(*s, k))
}
