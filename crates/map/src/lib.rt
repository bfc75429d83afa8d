// The register map: the constant tables, a byte a place, and the places of the registers that the code names.
#![tactic(auto)]

ghost use Rattle.std.specs.Prelude.{◌≡◌};
ghost use Rattle.map.specs.Map.{defaults, guests, hosts, resets};

mod tables;

pub const PCICMD2: usize = 0x04;

pub const PCISTS2: usize = 0x06;

pub const GTTMMADR: usize = 0x10;

pub const GMADR: usize = 0x18;

pub const IOBAR: usize = 0x20;

pub const SVID2: usize = 0x2C;

pub const SID2: usize = 0x2E;

pub const CAPPOINT: usize = 0x34;

pub const MSAC: usize = 0x62;

pub const CAPL: usize = 0x7F;

pub const AFCTL: usize = 0xA8;

pub const PMCS: usize = 0xD4;

pub const SWSCI: usize = 0xE8;

pub fn all_defaults() -> [u8; 256]
    ensures { result ≡ defaults }
{
    tables::DEFAULT
}

pub fn all_guests() -> [u8; 256]
    ensures { result ≡ guests }
{
    tables::GUEST
}

pub fn all_hosts() -> [u8; 256]
    ensures { result ≡ hosts }
{
    tables::HOST
}

pub fn all_resets() -> [u8; 256]
    ensures { result ≡ resets }
{
    tables::RESET
}
