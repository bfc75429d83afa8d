// A line as what it asks, by the tables of the player and of the console.
#![tactic(auto)]

ghost use Rattle.std.specs.Prelude.{◌≡◌, None, refl};
ghost use Rattle.line_forms.specs.Table.{find};
ghost use Rattle.line_forms.specs.Read.{columns_of, asks_of, Fits, read_by};
ghost use Rattle.line_table.specs.Table.{player_rows, rows};

use asked::{Asked, Look};
use line_forms::Row;
use line_parse::Table;
use rules::{Event, WindowEvent};

// ---- the row of a letter

#[tactic(auto, unfolding(line_forms::specs::Read::columns_of))]
fn player_row(f: u8) -> Option<Row>
    ensures { result ≡ columns_of (find f player_rows) }
{
    match f {
        b'W' => Some(line_parse::row(2, 1, 8)),
        b'R' => Some(line_parse::row(2, 1, 0)),
        b'H' => Some(line_parse::row(2, 2, 2)),
        b'E' => Some(line_parse::row(0, 0, 0)),
        b'P' => Some(line_parse::row(0, 0, 0)),
        _ => None,
    }
}

// Every other row is the player's.
#[tactic(auto, unfolding(line_forms::specs::Read::columns_of))]
fn any_row(f: u8) -> Option<Row>
    ensures { result ≡ columns_of (find f rows) }
{
    match f {
        b'O' => Some(line_parse::row(4, 1, 8)),
        b'I' => Some(line_parse::row(4, 1, 0)),
        b'A' => Some(line_parse::row(16, 0, 0)),
        b'N' => Some(line_parse::row(4, 0, 0)),
        b'S' => Some(line_parse::row(8, 8, 0)),
        b'K' => Some(line_parse::row(2, 0, 0)),
        b'V' => Some(line_parse::row(6, 1, 8)),
        b'U' => Some(line_parse::row(6, 1, 0)),
        b'C' => Some(line_parse::row(8, 0, 0)),
        b'F' => Some(line_parse::row(8, 0, 0)),
        b'T' => Some(line_parse::row(8, 0, 0)),
        b'Y' => Some(line_parse::row(6, 8, 8)),
        _ => player_row(f),
    }
}

// ---- what the numbers of a row ask

#[tactic(auto, unfolding(line_forms::specs::Read::asks_of, line_forms::specs::Read::Fits))]
fn player_asks(f: u8, x: u64, y: u32, z: u32) -> Option<Asked>
    requires { Fits (find f player_rows) x y z }
    ensures { result ≡ asks_of None (find f player_rows) x y z }
{
    match f {
        b'W' => Some(Asked::Event(Event::Write(x as u32, y, z))),
        b'R' => Some(Asked::Event(Event::Read(x as u32, y))),
        b'H' => Some(Asked::Event(Event::HostUpdate(x as u32, y as u8, z as u8))),
        b'E' => Some(Asked::Event(Event::EndSignal)),
        b'P' => Some(Asked::Event(Event::PlatformReset)),
        _ => None,
    }
}

#[tactic(auto, unfolding(line_forms::specs::Read::asks_of, line_forms::specs::Read::Fits))]
fn asks(f: u8, x: u64, y: u32, z: u32) -> Option<Asked>
    requires { Fits (find f rows) x y z }
    ensures { result ≡ asks_of None (find f rows) x y z }
{
    match f {
        b'O' => Some(Asked::Event(Event::PortWrite(x as u16, y, z))),
        b'I' => Some(Asked::Event(Event::PortRead(x as u16, y))),
        b'A' => Some(Asked::Look(Look::Memory(x))),
        b'N' => Some(Asked::Look(Look::Port(x as u16))),
        b'S' => Some(Asked::Look(Look::Probe(x as u32, y))),
        b'K' => Some(Asked::Look(Look::Walk(x as u8))),
        b'V' => Some(Asked::Event(Event::InWindow(WindowEvent::WindowWrite(x as u32, y, z)))),
        b'U' => Some(Asked::Event(Event::InWindow(WindowEvent::WindowRead(x as u32, y)))),
        b'C' => Some(Asked::Event(Event::InWindow(WindowEvent::Complete(x as u32)))),
        b'F' => Some(Asked::Event(Event::InWindow(WindowEvent::Fault(x as u32)))),
        b'T' => Some(Asked::Event(Event::InWindow(WindowEvent::AddCycles(x as u32)))),
        b'Y' => Some(Asked::Event(Event::InWindow(WindowEvent::MirrorUpdate(x as u32, y, z)))),
        _ => player_asks(f, x, y, z),
    }
}

// ---- the tables

// The player's.
pub struct PlayerLines {}

impl Table for PlayerLines {
    type Asked = Asked;

    ghost use Rattle.line_table.specs.Table.{player_rows};

    ghost rows = { player_rows };

    ghost held = { refl };

    ghost lettered = { refl };

    fn row(letter: u8) -> Option<Row> {
        player_row(letter)
    }

    fn asks(letter: u8, x: u64, y: u32, z: u32) -> Option<Asked> {
        player_asks(letter, x, y, z)
    }
}

// The console's.
pub struct ConsoleLines {}

impl Table for ConsoleLines {
    type Asked = Asked;

    ghost use Rattle.line_table.specs.Table.{rows as console_rows};

    ghost rows = { console_rows };

    ghost held = { refl };

    ghost lettered = { refl };

    fn row(letter: u8) -> Option<Row> {
        any_row(letter)
    }

    fn asks(letter: u8, x: u64, y: u32, z: u32) -> Option<Asked> {
        asks(letter, x, y, z)
    }
}

// ---- a line, without its LF

// What it asks of the player.
pub fn parse_player(l: &[u8]) -> Option<Asked>
    ensures { result ≡ read_by None player_rows l.now }
{
    line_parse::read::<PlayerLines>(l)
}

// What it asks of the console.
pub fn parse(l: &[u8]) -> Option<Asked>
    ensures { result ≡ read_by None rows l.now }
{
    line_parse::read::<ConsoleLines>(l)
}
