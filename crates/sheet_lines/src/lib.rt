// A line of the sheet player as what it asks of a sheet's device.
#![tactic(auto)]

ghost use Rattle.std.specs.Prelude.{◌≡◌, None, refl};
ghost use Rattle.line_forms.specs.Table.{find};
ghost use Rattle.line_forms.specs.Read.{columns_of, asks_of, Fits, read_by};
ghost use Rattle.sheet_lines.specs.Table.{sheet_rows};

use line_forms::Row;
use line_parse::Table;
use plain_device::Event;

// The row of a letter.
#[tactic(auto, unfolding(line_forms::specs::Read::columns_of))]
fn row(f: u8) -> Option<Row>
    ensures { result ≡ columns_of (find f sheet_rows) }
{
    match f {
        b'W' => Some(line_parse::row(2, 1, 8)),
        b'R' => Some(line_parse::row(2, 1, 0)),
        b'H' => Some(line_parse::row(2, 2, 2)),
        b'P' => Some(line_parse::row(0, 0, 0)),
        b'Z' => Some(line_parse::row(0, 0, 0)),
        _ => None,
    }
}

// What the numbers of a row ask.
#[tactic(auto, unfolding(line_forms::specs::Read::asks_of, line_forms::specs::Read::Fits))]
fn asks(f: u8, x: u64, y: u32, z: u32) -> Option<Event>
    requires { Fits (find f sheet_rows) x y z }
    ensures { result ≡ asks_of None (find f sheet_rows) x y z }
{
    match f {
        b'W' => Some(Event::Write(x as u32, y, z)),
        b'R' => Some(Event::Read(x as u32, y)),
        b'H' => Some(Event::HostUpdate(x as u32, y as u8, z as u8)),
        b'P' => Some(Event::PlatformReset),
        b'Z' => Some(Event::FunctionReset),
        _ => None,
    }
}

// The table of these lines.
pub struct SheetLines {}

impl Table for SheetLines {
    type Asked = Event;

    ghost use Rattle.sheet_lines.specs.Table.{sheet_rows};

    ghost rows = { sheet_rows };

    ghost held = { refl };

    ghost lettered = { refl };

    fn row(letter: u8) -> Option<Row> {
        row(letter)
    }

    fn asks(letter: u8, x: u64, y: u32, z: u32) -> Option<Event> {
        asks(letter, x, y, z)
    }
}

// What a line asks, without its LF.
pub fn parse(l: &[u8]) -> Option<Event>
    ensures { result ≡ read_by None sheet_rows l.now }
{
    line_parse::read::<SheetLines>(l)
}
