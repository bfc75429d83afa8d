// What an operation's number and three arguments ask.
#![tactic(auto)]

ghost use Rattle.std.specs.Prelude.{◌≡◌, Some, None};
ghost use Rattle.bits.specs.Choice.{when◌then◌else◌, ◌≤?◌};
ghost use Rattle.door_table.specs.Door.{doors, asked_at};

use asked::{Asked, Look};
use rules::{Event, WindowEvent};

// An argument that is a byte, and one that is a port; none where it is greater.
fn byte(n: u32) -> Option<u8>
    ensures { result ≡ when n ≤? 255 then Some n else None }
{
    u8::try_from(n).ok()
}

fn port(n: u32) -> Option<u16>
    ensures { result ≡ when n ≤? 65535 then Some n else None }
{
    u16::try_from(n).ok()
}

fn in_window(e: WindowEvent) -> Asked
    ensures { result ≡ Asked.Event (Event.InWindow e) }
{
    Asked::Event(Event::InWindow(e))
}

// Numbers come from C. As specs/Door.antt names them; an argument that is not taken, or any other number, asks nothing.
pub fn asked_at(op: u32, a: u32, b: u32, c: u32) -> Option<Asked>
    ensures { result ≡ asked_at doors op a b c }
{
    match op {
        0 => Some(Asked::Event(Event::PlatformReset)),
        1 => Some(Asked::Event(Event::Write(a, b, c))),
        2 => Some(Asked::Event(Event::Read(a, b))),
        3 => Some(Asked::Event(Event::HostUpdate(a, byte(b)?, byte(c)?))),
        4 => Some(Asked::Event(Event::PortWrite(port(a)?, b, c))),
        5 => Some(Asked::Event(Event::PortRead(port(a)?, b))),
        6 => Some(Asked::Look(Look::Memory((b as u64) * 4294967296 + (a as u64)))),
        7 => Some(Asked::Look(Look::Port(port(a)?))),
        8 => Some(Asked::Look(Look::Probe(a, b))),
        9 => Some(Asked::Look(Look::Walk(byte(a)?))),
        10 => Some(Asked::Event(Event::EndSignal)),
        11 => Some(in_window(WindowEvent::WindowWrite(a, b, c))),
        12 => Some(in_window(WindowEvent::WindowRead(a, b))),
        13 => Some(in_window(WindowEvent::Complete(a))),
        14 => Some(in_window(WindowEvent::Fault(a))),
        15 => Some(in_window(WindowEvent::AddCycles(a))),
        16 => Some(in_window(WindowEvent::MirrorUpdate(a, b, c))),
        _ => None,
    }
}
