// Which window claims a memory address or a port, with the offset inside.
#![tactic(auto)]

ghost use Rattle.std.specs.Prelude.{◌≡◌, ◌+◌, ◌%◌, ◌^◌, ◌<◌, ◌≤◌};
ghost use Rattle.rules.specs.Access.{up};
ghost use Rattle.rules.specs.Claims.{memory_claim_of, io_claim_of};
ghost use Rattle.rules.specs.Answers.{claim_says};
ghost use Rattle.claims.specs.Windows.{register_at, holds_of, in_aperture, aperture_of, memory_of, io_of, off_of};

use rules::{Claim, State};

// The windows' sizes; the aperture's by its size code.
const TRANSLATION: u64 = 4194304; // 4 MB

const APERTURE_00: u64 = 134217728; // 128 MB

const APERTURE_01: u64 = 268435456; // 256 MB

const APERTURE_11: u64 = 536870912; // 512 MB

const IO: u64 = 64;

// ---- registers

#[tactic(auto, using(crate::proofs::Bases::four_bytes))]
// `plain_device` has one of its own: each is one call, by another definition.
fn dword(m: &[u8; 256], at: usize) -> u32
    requires { at + 3 < 256 }
    ensures { result ≡ register_at 4 m.now at }
{
    bits::join(m[at], m[at + 1], m[at + 2], m[at + 3])
}

#[tactic(auto, using(crate::proofs::Bases::two_dwords))]
fn qword(m: &[u8; 256], at: usize) -> u64
    requires { at + 7 < 256 }
    ensures { result ≡ register_at 8 m.now at }
{
    let low = dword(m, at);
    let high = dword(m, at + 4);
    (high as u64) * 4294967296 + (low as u64)
}

// ---- one window

// The address equals the base in all bits from the size upward; bits of the base below the size have no say.
// The window's end is not computed: at the top of memory it would not fit.
fn holds(base: u64, size: u64, address: u64) -> bool
    requires { 0 < size }
    ensures { result ≡ holds_of base size address }
{
    address / size == base / size
}

// The offset is the address modulo the window's size.
fn offset(size: u64, address: u64) -> u32
    requires { (0 < size) × (size ≤ 2 ^ 32) }
    ensures { result ≡ address % size }
{
    (address % size) as u32
}

// ---- the aperture

#[tactic(auto, unfolding(crate::specs::Windows::in_aperture))]
fn in_aperture(base: u64, size: u64, address: u64) -> Option<Claim>
    requires { (0 < size) × (size ≤ 2 ^ 32) }
    ensures { claim_says result ≡ in_aperture base size address }
{
    if holds(base, size, address) {
        return Some(Claim::Aperture(offset(size, address)));
    }
    None
}

// The size is named by the size code; code 10 claims no aperture.
#[tactic(auto, using(bits::proofs::Tests::tests), unfolding(crate::specs::Windows::aperture_of, rules::specs::Device::bits_taken))]
fn aperture(base: u64, code: u8, address: u64) -> Option<Claim>
    ensures { claim_says result ≡ aperture_of base code address }
{
    if code == 2 {
        return None;
    }
    if code == 3 {
        return in_aperture(base, APERTURE_11, address);
    }
    if code == 1 {
        return in_aperture(base, APERTURE_01, address);
    }
    in_aperture(base, APERTURE_00, address)
}

// ---- memory and I/O, where they are enabled

// If both windows hold the address, GTTMMADR answers.
#[tactic(auto, unfolding(crate::specs::Windows::memory_of))]
fn memory(m: &[u8; 256], address: u64) -> Option<Claim>
    ensures { claim_says result ≡ memory_of m.now address }
{
    if holds(qword(m, map::GTTMMADR), TRANSLATION, address) {
        return Some(Claim::Translation(offset(TRANSLATION, address)));
    }
    aperture(qword(m, map::GMADR), m[map::MSAC] / 2 % 4, address)
}

#[tactic(auto, unfolding(crate::specs::Windows::io_of))]
fn io(m: &[u8; 256], port: u16) -> Option<Claim>
    ensures { claim_says result ≡ io_of m.now port }
{
    let address = port as u64;
    if holds(dword(m, map::IOBAR) as u64, IO, address) {
        return Some(Claim::Io(offset(IO, address)));
    }
    None
}

// While a function reset is under way nothing is claimed, and in power state 11.
fn off(m: &[u8; 256], busy: u8) -> bool
    ensures { result ≡ off_of (up busy) m.now }
{
    if busy != 0 {
        return true;
    }
    m[map::PMCS] % 4 == 3
}

// ---- the entries

// The window that claims a memory address. Memory needs PCICMD2 bit 1.
pub fn claim_memory(s: State, address: u64) -> Option<Claim>
    ensures { claim_says result ≡ memory_claim_of s address }
{
    let t = s;
    if t.bytes[map::PCICMD2] / 2 % 2 == 0 {
        return None;
    }
    if off(&t.bytes, t.flags.busy) {
        return None;
    }
    memory(&t.bytes, address)
}

// The window that claims a port. I/O needs PCICMD2 bit 0.
pub fn claim_port(s: State, port: u16) -> Option<Claim>
    ensures { claim_says result ≡ io_claim_of s port }
{
    let t = s;
    if t.bytes[map::PCICMD2] % 2 == 0 {
        return None;
    }
    if off(&t.bytes, t.flags.busy) {
        return None;
    }
    io(&t.bytes, port)
}
