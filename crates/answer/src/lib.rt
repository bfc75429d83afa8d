// The paper's refusals and their numbers, and what an entry answers. A refusal more is a line here and one in specs/Said.antt.
#![tactic(auto)]

ghost use Rattle.std.specs.Prelude.{◌≡◌};
ghost use Rattle.answer.specs.Said.{number_of};

// The paper's number stands beside each.
#[derive(Clone, Copy, Debug, PartialEq, Eq)]
pub enum Refusal {
    Length = 1,
    Width = 2,
    NotOurs = 3,
    OtherFunction = 4,
    Offset = 5,
    Lanes = 6,
    NotHost = 7,
    NoRange = 8,
    Line = 9,
    Pointer = 10,
    Endless = 11,
    SheetLength = 12,
    SheetContents = 13,
    SheetBody = 14,
    WindowOffset = 16,
}

// Accepted; accepted with a value; refused.
pub type Answer = Result<Option<u32>, Refusal>;

// What is answered, and the state afterwards.
#[derive(Clone, Copy)]
pub struct Stepped<S> {
    pub answer: Answer,
    pub state: S,
}

// The paper's number.
pub fn number(r: Refusal) -> u32
    ensures { result ≡ number_of r }
{
    r as u32
}
