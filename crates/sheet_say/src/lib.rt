// An entry of a register sheet, as it is told to a person.
#![tactic(auto)]

ghost use Rattle.std.specs.Prelude.{◌≡◌, ◌+◌, ◌*◌, ◌%◌, ◌≤◌};
ghost use Rattle.sheet.specs.Sheet.{at, length_of, start_of};

use std::fmt;

// Entry `k` of a sheet, counted from 0. It is written `entry 2 at 2C`, counted from 1, with its config offset.
#[derive(Clone, Copy)]
pub struct Named<'a> {
    pub sheet: &'a [u8],
    pub k: usize,
}

impl Named<'_> {
    // A sheet has at most 64 entries.
    fn number(self) -> usize
        ensures { result ≡ self.entry.k % 64 }
    {
        self.k % 64
    }

    // A byte of the entry.
    fn byte(self, i: usize) -> u8
        requires { i ≤ 4 }
        ensures { result ≡ at self.entry.sheet.now (4 * (self.entry.k % 64) + i) }
    {
        sheet::byte_at(self.sheet, 4 * self.number() + i)
    }

    // Its register's length.
    pub fn length(self) -> u8
        ensures { result ≡ length_of self.entry.sheet.now (self.entry.k % 64) }
    {
        self.byte(2)
    }

    // Where its body starts.
    pub fn start(self) -> u16
        ensures { result ≡ start_of self.entry.sheet.now (self.entry.k % 64) }
    {
        u16::from_le_bytes([self.byte(3), self.byte(4)])
    }
}

impl fmt::Display for Named<'_> {
    fn fmt<W: fmt::Write>(&self, f: &mut fmt::Formatter<W>) -> fmt::Result {
        write!(f, "entry {} at {:02X}", self.number() + 1, self.byte(1))
    }
}
