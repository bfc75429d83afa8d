// What is asked of an access before it is made: its offset, then its lanes. Every access with lanes goes through here.
#![tactic(auto)]

ghost use Rattle.std.specs.Prelude.{◌≡◌, IfOk};
ghost use Rattle.answer.specs.Refusals.{fine, no, OFFSET};
ghost use Rattle.answer.specs.Said.{number_of};
ghost use Rattle.access.specs.Access.{bad_offset, admit, admits};

use answer::Refusal;

mod admitted;

pub use admitted::Admitted;

// Refused with `r` where its offset is bad, and then for its lanes.
pub fn admit(bad: bool, r: Refusal, lanes: u32) -> Result<(), Refusal>
    ensures { admits result ≡ admit bad (number_of r) lanes no fine }
{
    if bad {
        return Err(r);
    }
    if 15 < lanes {
        return Err(Refusal::Lanes);
    }
    Ok(())
}

fn bad_offset(o: u32) -> bool
    ensures { result ≡ bad_offset o }
{
    if 255 < o {
        return true;
    }
    o % 4 != 0
}

// An access of the 256 bytes: what is made of it is as it was asked.
pub fn direct(offset: u32, lanes: u32) -> Result<Admitted, Refusal>
    ensures asked { admits result ≡ admit (bad_offset offset) OFFSET lanes no fine }
    ensures made { IfOk result (λ a. (a.offset ≡ offset) × (a.lanes ≡ lanes)) }
{
    admit(bad_offset(offset), Refusal::Offset, lanes)?;
    Ok(Admitted {
        offset: offset as usize,
        lanes,
    })
}
