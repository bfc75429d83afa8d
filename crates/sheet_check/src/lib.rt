// A register sheet checked, by a reader that holds it.
#![tactic(auto)]

ghost use Rattle.std.specs.Prelude.{◌≡◌, ◌<◌, ◌≤◌, length, Ok};
ghost use Rattle.sheet.specs.Sheet.{entries, contents, belongs};
ghost use Rattle.sheet.specs.Reads.{body_at};
ghost use Rattle.sheet_rules.specs.Check.{sheet_no, ◌and_then◌, placed, entry_of, named, first_of, check_of};

use answer::Refusal;
use sheet::{BodyFault, Entry};
use sheet_rules::SheetFault;

// The refusal's number, 0 where the sheet is good.
pub fn number(a: Result<(), SheetFault>) -> u32
    ensures { result ≡ sheet_no a }
{
    match a {
        Ok(()) => 0,
        Err(fault) => answer::number(Refusal::from(fault)),
    }
}

// ---- the contents

// Entry `k`, where the register before it ends at `end` and its body belongs at `place`.
#[tactic(auto, unfolding(sheet_rules::specs::Check::placed))]
fn judge(e: Entry, k: usize, end: usize, place: usize) -> Result<(), SheetFault>
    ensures { result ≡ placed k end place e.offset e.length e.start }
{
    if e.length < 1 || 8 < e.length {
        return Err(SheetFault::Length(k));
    }
    if (e.offset as usize) < end {
        return Err(SheetFault::Order(k));
    }
    if 256 < e.end() {
        return Err(SheetFault::Past(k));
    }
    if e.start as usize != place {
        return Err(SheetFault::Start(k));
    }
    Ok(())
}

// The entries in order; behind the last, where the bodies end.
fn walk_entries(s: &[u8], n: usize) -> Result<usize, SheetFault>
    requires { (n ≡ entries s.now) × (n < 256) × (contents s.now ≤ length s.now) }
    ensures { result ≡ (first_of (entry_of s.now) n and_then Ok (belongs s.now n)) }
{
    let mut end = 0;
    let mut place = 4 * n + 1;
    for k in 0..n {
        let e = sheet_reader::entry_of(s, k).ok_or(SheetFault::Cut)?;
        judge(e, k, end, place)?;
        end = e.end();
        place += e.body_length();
    }
    Ok(place)
}

// ---- the bodies

// What is wrong with the body of entry `k`, as what is wrong with the sheet.
fn name(b: Result<(), BodyFault>, k: usize) -> Result<(), SheetFault>
    ensures { result ≡ named k b }
{
    b.map_err(|fault| match fault {
        BodyFault::Shared => SheetFault::Shared(k),
        BodyFault::Outside => SheetFault::Outside(k),
        BodyFault::Missing => SheetFault::Total,
    })
}

// The bodies in order.
fn walk_bodies(s: &[u8], n: usize) -> Result<(), SheetFault>
    ensures { result ≡ first_of (λ k. named k (body_at s.now k)) n }
{
    for k in 0..n {
        name(sheet_reader::body_of(s, k), k)?;
    }
    Ok(())
}

// ---- the sheet

// Whether a slice of any bytes is a sheet, and what is wrong with it first.
pub fn check(s: &[u8]) -> Result<(), SheetFault>
    ensures { result ≡ check_of s.now }
{
    if s.is_empty() {
        return Err(SheetFault::Empty);
    }
    let n = sheet::count(s);
    if n < 1 || 64 < n {
        return Err(SheetFault::Count);
    }
    if s.len() < 4 * n + 1 {
        return Err(SheetFault::Cut);
    }
    let end = walk_entries(s, n)?;
    if s.len() != end {
        return Err(SheetFault::Total);
    }
    walk_bodies(s, n)
}
