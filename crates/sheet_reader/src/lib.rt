// A reader of a register sheet: it keeps hold of the sheet's bytes while it goes through the contents, and hands each body on to the body checker.
// Its methods are thin: each calls the covered function on the slice and the number. `entry_of` and `body_of` serve a caller that has a plain slice.
#![tactic(auto)]

ghost use Rattle.std.specs.Prelude.{◌≡◌};
ghost use Rattle.sheet.specs.Reads.{entry_at, body_at};

use sheet::{BodyFault, Entry};

// The lent sheet, and the number of the next entry.
#[derive(Clone, Copy, Debug)]
pub struct Reader<'a> {
    pub sheet: &'a [u8],
    pub next: usize,
}

impl<'a> Reader<'a> {
    // A reader that stands before entry `next`.
    pub fn hold(sheet: &'a [u8], next: usize) -> Reader<'a>
        ensures { (result.sheet ≡ sheet.entry) × (result.next ≡ next) }
    {
        Reader { sheet, next }
    }

    // The same reader before another entry.
    pub fn moved(self, next: usize) -> Reader<'a>
        ensures { (result.sheet ≡ self.entry.sheet) × (result.next ≡ next) }
    {
        Reader { next, ..self }
    }

    // The next entry.
    pub fn entry(self) -> Option<Entry>
        ensures { result ≡ entry_at self.entry.sheet.now self.entry.next }
    {
        sheet::entry_at(self.sheet, self.next)
    }

    // What the masks of the next entry's body are.
    pub fn body(self) -> Result<(), BodyFault>
        ensures { result ≡ body_at self.entry.sheet.now self.entry.next }
    {
        sheet::body_at(self.sheet, self.next)
    }
}

// Entry `k` of a plain slice.
pub fn entry_of(sheet: &[u8], k: usize) -> Option<Entry>
    ensures { result ≡ entry_at sheet.now k }
{
    Reader::hold(sheet, k).entry()
}

// The body of entry `k` of a plain slice.
pub fn body_of(sheet: &[u8], k: usize) -> Result<(), BodyFault>
    ensures { result ≡ body_at sheet.now k }
{
    Reader::hold(sheet, k).body()
}
