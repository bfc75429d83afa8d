// What is wrong with a register sheet, in a sentence on standard error.
#![tactic(auto)]

use sheet_rules::SheetFault;
use sheet_say::Named;
use std::fmt;

// The longest sheet: 4 * 64 + 1 bytes of contents, and 4 * 256 of bodies.
pub const LONGEST: usize = 1281;

// A sheet and what is wrong with it, which is written as a sentence.
#[derive(Clone, Copy)]
struct Complaint<'a> {
    sheet: &'a [u8],
    fault: SheetFault,
}

impl<'a> Complaint<'a> {
    fn entry(&self, k: usize) -> Named<'a> {
        Named {
            sheet: self.sheet,
            k,
        }
    }
}

impl fmt::Display for Complaint<'_> {
    fn fmt<W: fmt::Write>(&self, f: &mut fmt::Formatter<W>) -> fmt::Result {
        let length = self.sheet.len();
        match self.fault {
            SheetFault::Empty => write!(f, "the sheet is empty"),
            SheetFault::Count => {
                let n = sheet::count(self.sheet);
                write!(f, "byte 0 says {n} entries, and a sheet has 1 to 64")
            }
            SheetFault::Cut => {
                write!(
                    f,
                    "the contents are cut short: the sheet has {length} bytes"
                )
            }
            SheetFault::Length(k) => {
                let entry = self.entry(k);
                let n = entry.length();
                write!(
                    f,
                    "{entry}: its length is {n}, and a register has 1 to 8 bytes"
                )
            }
            SheetFault::Order(k) => {
                let entry = self.entry(k);
                write!(
                    f,
                    "{entry}: its register starts before that of the entry before it ends"
                )
            }
            SheetFault::Past(k) => write!(f, "{}: its register passes byte FF", self.entry(k)),
            SheetFault::Start(k) => {
                let entry = self.entry(k);
                let n = entry.start();
                write!(
                    f,
                    "{entry}: its body starts at byte {n}, not where the contents or the body before it end",
                )
            }
            // How long a file is that is longer than any sheet is not known: no more of it is read.
            SheetFault::Total if LONGEST < length => {
                write!(
                    f,
                    "the file is longer than the longest sheet, {LONGEST} bytes"
                )
            }
            SheetFault::Total => {
                write!(
                    f,
                    "the sheet has {length} bytes, and its last body does not end there"
                )
            }
            SheetFault::Shared(k) => {
                write!(f, "{}: its guest and host masks share a bit", self.entry(k))
            }
            SheetFault::Outside(k) => {
                let entry = self.entry(k);
                write!(
                    f,
                    "{entry}: its reset mask has a bit outside its guest mask"
                )
            }
        }
    }
}

// What is wrong with a sheet, in one line. What cannot be said is let go.
pub fn complain<R: Eprint>(rt: &R, s: &[u8], fault: SheetFault) {
    let complaint = Complaint { sheet: s, fault };
    eprintln!(rt; "{complaint}").is_ok();
}
