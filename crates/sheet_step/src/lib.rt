// What a line asks of a sheet's device, over 256 bytes that are lent.
#![tactic(auto)]

ghost use Rattle.std.specs.Prelude.{◌≡◌};
ghost use Rattle.plain_device.specs.Bytes.{answered};
ghost use Rattle.sheet_step.specs.Ask.{happens_in, meant_of};

use answer::{Answer, Refusal};
use plain_device::Event;

#[tactic(auto, unfolding(crate::specs::Ask::happens_in))]
fn happen(
    defaults: &[u8; 256],
    guests: &[u8; 256],
    hosts: &[u8; 256],
    resets: &[u8; 256],
    m: &mut [u8; 256],
    e: Event,
) -> Answer
    ensures { answered result m.new ≡ happens_in defaults.now guests.now hosts.now resets.now m.old e }
{
    match e {
        Event::Read(o, l) => plain_device::read_in(m, o, l),
        Event::Write(o, l, v) => plain_device::write_in(m, guests, o, l, v),
        Event::HostUpdate(o, k, v) => host_updates::host_update(m, hosts, o, k, v),
        Event::FunctionReset => {
            plain::reset(m, resets, defaults);
            Ok(None)
        }
        Event::PlatformReset => {
            *m = *defaults;
            Ok(None)
        }
    }
}

#[tactic(auto, unfolding(crate::specs::Ask::meant_of))]
pub fn ask(
    defaults: &[u8; 256],
    guests: &[u8; 256],
    hosts: &[u8; 256],
    resets: &[u8; 256],
    m: &mut [u8; 256],
    q: Option<Event>,
) -> Answer
    ensures { answered result m.new ≡ meant_of defaults.now guests.now hosts.now resets.now m.old q }
{
    match q {
        Some(e) => happen(defaults, guests, hosts, resets, m, e),
        None => Err(Refusal::Line),
    }
}
