// A plain device: 256 bytes, and four tables that say what may change each bit. Its entries go by the plain rule and know nothing else.
#![tactic(auto)]

ghost use Rattle.std.specs.Prelude.{◌≡◌, ◌+◌, ◌<◌};
ghost use Rattle.answer.specs.Said.{says};
ghost use Rattle.plain_device.specs.Device.{read_of, write_of, host_of, function_reset_of, stepped};
ghost use Rattle.plain_device.specs.Bytes.{dword_of, read_bytes, stored_bytes, write_bytes, answered};

use access::Admitted;
use answer::{Answer, Stepped};

// What the device holds. Every pattern of bytes is a state.
#[derive(Clone, Copy)]
pub struct Registers {
    pub bytes: [u8; 256],
}

// What may change each bit, and what it starts from. Any tables make a device.
#[derive(Clone, Copy)]
pub struct Tables {
    pub defaults: [u8; 256],
    pub guests: [u8; 256],
    pub hosts: [u8; 256],
    pub resets: [u8; 256],
}

// What can happen to the device: a guest's read (offset, lanes) and write (offset, lanes, value), the host's update (offset, mask, value) and function reset, and a platform reset.
#[derive(Clone, Copy)]
pub enum Event {
    Read(u32, u32),
    Write(u32, u32, u32),
    HostUpdate(u32, u8, u8),
    FunctionReset,
    PlatformReset,
}

// ---- over 256 bytes that are lent

#[tactic(auto, unfolding(crate::specs::Bytes::dword_of))]
fn dword(m: &[u8; 256], a: Admitted) -> u32
    ensures { result ≡ dword_of m.now a.offset }
{
    let o = a.offset;
    bits::join(m[o], m[o + 1], m[o + 2], m[o + 3])
}

#[tactic(auto, using(crate::proofs::Entry::read_refused, crate::proofs::Entry::read_made))]
pub fn read_in(m: &[u8; 256], offset: u32, lanes: u32) -> Answer
    ensures { says result ≡ read_bytes m.now offset lanes }
{
    let a = access::direct(offset, lanes)?;
    Ok(Some(plain::driven(a.lanes, dword(m, a))))
}

// The enabled bytes, each under its guest mask.
#[tactic(auto, unfolding(crate::specs::Bytes::stored_bytes))]
fn store(m: &mut [u8; 256], guests: &[u8; 256], a: Admitted, value: u32)
    ensures { m.new ≡ stored_bytes guests.now m.old a.offset a.lanes value }
{
    let o = a.offset;
    plain::store(
        m,
        o,
        a.lanes,
        value,
        guests[o],
        guests[o + 1],
        guests[o + 2],
        guests[o + 3],
    );
}

#[tactic(auto, using(crate::proofs::Entry::write_refused, crate::proofs::Entry::write_made))]
pub fn write_in(
    m: &mut [u8; 256],
    guests: &[u8; 256],
    offset: u32,
    lanes: u32,
    value: u32,
) -> Answer
    ensures { answered result m.new ≡ write_bytes guests.now m.old offset lanes value }
{
    let a = access::direct(offset, lanes)?;
    store(m, guests, a, value);
    Ok(None)
}

// ---- the entries, over a state by value

// The enabled bytes of the dword at `offset`.
pub fn read(s: Registers, offset: u32, lanes: u32) -> Answer
    ensures { says result ≡ read_of s.bytes offset lanes }
{
    let t = s;
    read_in(&t.bytes, offset, lanes)
}

// A guest write of the enabled bytes of `value` to the dword at `offset`, under the guest masks.
pub fn write(
    s: Registers,
    guests: &[u8; 256],
    offset: u32,
    lanes: u32,
    value: u32,
) -> Stepped<Registers>
    ensures { stepped result ≡ write_of guests.now s.bytes offset lanes value }
{
    let mut t = s;
    let answer = write_in(&mut t.bytes, guests, offset, lanes, value);
    Stepped { answer, state: t }
}

// The host's change of the bits under `mask`, in the byte at `offset`, within the host masks.
pub fn host_update(
    s: Registers,
    hosts: &[u8; 256],
    offset: u32,
    mask: u8,
    value: u8,
) -> Stepped<Registers>
    ensures { stepped result ≡ host_of hosts.now s.bytes offset mask value }
{
    let mut t = s;
    let answer = host_updates::host_update(&mut t.bytes, hosts, offset, mask, value);
    Stepped { answer, state: t }
}

// A function reset, which is the host's to call: the bits under the reset masks return to default.
#[tactic(auto, using(crate::proofs::Bridge::reset_is))]
pub fn function_reset(s: Registers, resets: &[u8; 256], defaults: &[u8; 256]) -> Registers
    ensures { result.bytes ≡ function_reset_of resets.now defaults.now s.bytes }
{
    let mut t = s;
    plain::reset(&mut t.bytes, resets, defaults);
    t
}

// A platform reset returns everything to default; a device starts so.
pub fn platform_reset(defaults: &[u8; 256]) -> Registers
    ensures { result.bytes ≡ defaults.now }
{
    let bytes = *defaults;
    Registers { bytes }
}
