// A register sheet's entries and bodies, over a lent slice of any length and any bytes.
#![tactic(auto)]

ghost use Rattle.std.specs.Prelude.{◌≡◌, ◌+◌, ◌*◌, ◌<◌};
ghost use Rattle.sheet.specs.Sheet.{at, entries};
ghost use Rattle.sheet.specs.Reads.{part_no, entry_at, covers, byte_is, body_is, body_in, body_at};

// An entry of the contents: config offset, length and body start.
#[derive(Clone, Copy, Debug, PartialEq, Eq)]
pub struct Entry {
    pub offset: u8,
    pub length: u8,
    pub start: u16,
}

impl Entry {
    // Where its register ends.
    pub fn end(self) -> usize
        ensures { result ≡ self.offset + self.length }
    {
        self.offset as usize + self.length as usize
    }

    // How long its body is: four parts.
    pub fn body_length(self) -> usize
        ensures { result ≡ 4 * self.length }
    {
        4 * self.length as usize
    }

    // Whether its register has byte `i` of the device.
    pub fn holds(self, i: usize) -> bool
        ensures { result ≡ covers self.offset self.length i }
    {
        self.offset as usize <= i && i < self.end()
    }
}

// What is wrong with a body: guest and host masks share a bit, the reset mask leaves the guest mask; or there is no body within the sheet.
#[derive(Clone, Copy, Debug, PartialEq, Eq)]
pub enum BodyFault {
    Shared,
    Outside,
    Missing,
}

// The parts of a body, in their order.
#[derive(Clone, Copy, Debug, PartialEq, Eq)]
pub enum Part {
    Default,
    Guest,
    Host,
    Reset,
}

impl Part {
    // Which it is, from 0 on.
    pub fn number(self) -> usize
        ensures { (result ≡ part_no self) × (result < 4) }
    {
        self as usize
    }
}

// A byte of the sheet, 0 past its end.
pub fn byte_at(s: &[u8], i: usize) -> u8
    ensures { result ≡ at s.now i }
{
    s.get(i).copied().unwrap_or(0)
}

// How many entries the contents say that they have.
pub fn count(s: &[u8]) -> usize
    ensures { (result ≡ entries s.now) × (result < 256) }
{
    byte_at(s, 0) as usize
}

// Entry `k`, counted from 0, or none of that number.
pub fn entry_at(s: &[u8], k: usize) -> Option<Entry>
    ensures { result ≡ entry_at s.now k }
{
    if count(s) <= k {
        return None;
    }
    let i = 4 * k;
    if s.len() <= i + 4 {
        return None;
    }
    Some(Entry {
        offset: s[i + 1],
        length: s[i + 2],
        start: u16::from_le_bytes([s[i + 3], s[i + 4]]),
    })
}

fn byte_masks(guest: u8, host: u8, reset: u8) -> Result<(), BodyFault>
    ensures { result ≡ byte_is guest host reset }
{
    if bits::blend(guest, 0, host) != 0 {
        return Err(BodyFault::Shared);
    }
    if bits::blend(guest, reset, 0) != 0 {
        return Err(BodyFault::Outside);
    }
    Ok(())
}

// The body checker: a body is the part of a sheet that it is handed, four parts of one length.
pub fn body_masks(b: &[u8]) -> Result<(), BodyFault>
    ensures { result ≡ body_is b.now }
{
    let l = b.len() / 4;
    for t in 0..l {
        byte_masks(b[l + t], b[2 * l + t], b[3 * l + t])?;
    }
    Ok(())
}

fn body_in(s: &[u8], e: Entry) -> Result<(), BodyFault>
    ensures { result ≡ body_in s.now e }
{
    let start = e.start as usize;
    let end = start + e.body_length();
    if s.len() < end {
        return Err(BodyFault::Missing);
    }
    body_masks(&s[start..end])
}

// The body of entry `k`: the part of the sheet from its body start, 4L long, is handed to the body checker.
pub fn body_at(s: &[u8], k: usize) -> Result<(), BodyFault>
    ensures { result ≡ body_at s.now k }
{
    let e = entry_at(s, k).ok_or(BodyFault::Missing)?;
    body_in(s, e)
}
