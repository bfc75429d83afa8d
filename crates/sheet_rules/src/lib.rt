// What a register sheet is checked for, in the order of refusals, and the tables that it says: in specs/. The code is a fault and its refusal.
#![tactic(auto)]

ghost use Rattle.std.specs.Prelude.{◌≡◌};
ghost use Rattle.answer.specs.Said.{number_of};
ghost use Rattle.sheet_rules.specs.Check.{fault_no};

use answer::Refusal;

// What is wrong with a sheet first, and with which entry, counted from 0.
#[derive(Clone, Copy, Debug, PartialEq, Eq)]
pub enum SheetFault {
    Empty,
    Count,
    Cut,
    Length(usize),
    Order(usize),
    Past(usize),
    Start(usize),
    Total,
    Shared(usize),
    Outside(usize),
}

impl From<SheetFault> for Refusal {
    ghost from_gives = { λ fault refusal. number_of refusal ≡ fault_no fault };

    fn from(fault: SheetFault) -> Refusal {
        match fault {
            SheetFault::Empty | SheetFault::Cut | SheetFault::Total => Refusal::SheetLength,
            SheetFault::Shared(_) | SheetFault::Outside(_) => Refusal::SheetBody,
            SheetFault::Count
            | SheetFault::Length(_)
            | SheetFault::Order(_)
            | SheetFault::Past(_)
            | SheetFault::Start(_) => Refusal::SheetContents,
        }
    }
}
