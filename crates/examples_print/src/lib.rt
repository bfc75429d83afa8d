// Answers as the paper writes them, in upper-case hex, behind what was asked.
#![tactic(auto)]

use answer::{Answer, Refusal};
use std::fmt;

// What is refused, by its number.
#[derive(Clone, Copy)]
pub struct Refused(pub Refusal);

impl fmt::Display for Refused {
    fn fmt<W: fmt::Write>(&self, f: &mut fmt::Formatter<W>) -> fmt::Result {
        write!(f, ": refusal {}", answer::number(self.0))
    }
}

// A write's answer: nothing where it is accepted.
#[derive(Clone, Copy)]
pub struct Written(pub Answer);

impl fmt::Display for Written {
    fn fmt<W: fmt::Write>(&self, f: &mut fmt::Formatter<W>) -> fmt::Result {
        match self.0 {
            Ok(_) => Ok(()),
            Err(r) => write!(f, "{}", Refused(r)),
        }
    }
}

// A read's, in so many digits.
#[derive(Clone, Copy)]
pub struct Read {
    pub answer: Answer,
    pub digits: usize,
}

impl fmt::Display for Read {
    fn fmt<W: fmt::Write>(&self, f: &mut fmt::Formatter<W>) -> fmt::Result {
        let digits = self.digits;
        match self.answer {
            Ok(None) => Ok(()),
            Ok(Some(v)) => write!(f, ": {v:0digits$X}"),
            Err(r) => write!(f, "{}", Refused(r)),
        }
    }
}
