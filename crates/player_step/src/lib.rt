// What is asked of the session player, over 256 bytes and flags that are lent.
#![tactic(auto)]

ghost use Rattle.std.specs.Prelude.{◌≡◌, Err};
ghost use Rattle.answer.specs.Said.{says};
ghost use Rattle.guest_write.specs.Bytes.{lent};
ghost use Rattle.player_step.specs.Ask.{happens_in, asked_of};

use answer::{Answer, Refusal};
use asked::Asked;
use rules::{Event, Flags};

// A line of no form.
fn none() -> Answer
    ensures { result ≡ Err Refusal.Line }
{
    Err(Refusal::Line)
}

// What happens to bytes and flags; ports and window are not the player's.
#[tactic(auto, unfolding(crate::specs::Ask::happens_in))]
fn happen(guest: &[u8; 256], host: &[u8; 256], m: &mut [u8; 256], c: &mut Flags, e: Event) -> Answer
    ensures { lent (says result) m.new c.new ≡ happens_in guest.now host.now m.old c.old e }
{
    match e {
        Event::Write(o, l, v) => guest_write::write(m, guest, c, o, l, v),
        Event::Read(o, l) => guest_read::read(m, c.busy, o, l),
        Event::HostUpdate(o, k, v) => host_updates::host_update(m, host, o, k, v),
        Event::EndSignal => {
            function_reset::end(m, c);
            Ok(None)
        }
        Event::PlatformReset => {
            *m = map::all_defaults();
            *c = function_reset::fresh_flags();
            Ok(None)
        }
        Event::PortRead(_, _) | Event::PortWrite(_, _, _) | Event::InWindow(_) => none(),
    }
}

#[tactic(auto, unfolding(crate::specs::Ask::asked_of))]
pub fn ask(
    guest: &[u8; 256],
    host: &[u8; 256],
    m: &mut [u8; 256],
    c: &mut Flags,
    q: Option<Asked>,
) -> Answer
    ensures { lent (says result) m.new c.new ≡ asked_of guest.now host.now m.old c.old q }
{
    match q {
        Some(Asked::Event(e)) => happen(guest, host, m, c, e),
        Some(Asked::Look(_)) | None => none(),
    }
}
