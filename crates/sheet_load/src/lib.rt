// The tables of the device that a register sheet describes, by a reader that holds it.
#![tactic(auto)]

ghost use Rattle.std.specs.Prelude.{◌≡◌, ◌+◌, ◌-◌, ◌*◌, ◌<◌, ◌≤◌, length};
ghost use Rattle.bits.specs.Places.{bytes};
ghost use Rattle.sheet.specs.Sheet.{entries, contents};
ghost use Rattle.sheet.specs.Reads.{part_no};
ghost use Rattle.sheet_rules.specs.Check.{check_of};
ghost use Rattle.sheet_rules.specs.Tables.{raw_in, tables_of};

use plain_device::Tables;
use sheet::{Entry, Part};
use sheet_rules::SheetFault;
use std::array;

// Where byte `i` of a part stands in the sheet.
fn place(e: Entry, part: Part, i: usize) -> usize
    requires { i < 256 }
    ensures { result ≡ e.start + part_no part * e.length + (i - e.offset) }
{
    e.start as usize + part.number() * e.length as usize + i.saturating_sub(e.offset as usize)
}

// Byte `i` of a part, 0 where no entry has it.
fn cell(s: &[u8], part: Part, i: usize) -> u8
    requires { (i < 256) × (contents s.now ≤ length s.now) }
    ensures { result ≡ raw_in s.now (part_no part) i (entries s.now) }
{
    for k in (0..sheet::count(s)).rev() {
        let Some(e) = sheet_reader::entry_of(s, k) else {
            continue;
        };
        if e.holds(i) {
            return sheet::byte_at(s, place(e, part, i));
        }
    }
    0
}

fn table(s: &[u8], part: Part) -> [u8; 256]
    requires { contents s.now ≤ length s.now }
    ensures { result ≡ bytes (λ i. raw_in s.now (part_no part) i (entries s.now)) }
{
    array::from_fn(|i| cell(s, part, i))
}

// A record, and no Result: a refused sheet's tables are promised too.
#[derive(Clone, Copy)]
pub struct Loaded {
    pub answer: Result<(), SheetFault>,
    pub tables: Tables,
}

// The device that a sheet describes. A sheet that is refused gives zeros.
pub fn load(s: &[u8]) -> Loaded
    ensures { (result.answer ≡ check_of s.now) × (result.tables ≡ tables_of s.now) }
{
    let answer = sheet_check::check(s);
    let tables = if answer.is_ok() {
        Tables {
            defaults: table(s, Part::Default),
            guests: table(s, Part::Guest),
            hosts: table(s, Part::Host),
            resets: table(s, Part::Reset),
        }
    } else {
        Tables {
            defaults: [0; 256],
            guests: [0; 256],
            hosts: [0; 256],
            resets: [0; 256],
        }
    };
    Loaded { answer, tables }
}
