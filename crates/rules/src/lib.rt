// The twin's state, and what can happen to it. What each event does is in specs/; this crate has no code.
#![tactic(auto)]

// Numbers, and no bools, since the record is lent from C. The write-once fields: 0 open, any other number closed. Busy: 0 where no function reset is under way, any other number where one is.
#[repr(C)]
#[derive(Clone, Copy)]
pub struct Flags {
    pub svid2: u8,
    pub sid2: u8,
    pub swsci15: u8,
    pub busy: u8,
}

// The registers of the window inside GTTMMADR, in the order of their offsets; MTOUUD has two dwords.
#[repr(C)]
#[derive(Clone, Copy)]
pub struct Mapped {
    pub fault: u32,
    pub assrreq: u32,
    pub mtouud: u32,
    pub mtouudh: u32,
    pub mbdsm: u32,
    pub cycles: u32,
}

// The 256 configuration bytes, the port latch, the flags, and the window's registers. Every pattern of 288 bytes is a state.
#[repr(C)]
#[derive(Clone, Copy)]
pub struct State {
    pub bytes: [u8; 256],
    pub latch: u32,
    pub flags: Flags,
    pub window: Mapped,
}

// The window that claims an address, with the offset inside.
#[derive(Clone, Copy, Debug, PartialEq, Eq)]
pub enum Claim {
    Translation(u32),
    Aperture(u32),
    Io(u32),
}

// What can happen in the window: a guest's read (offset, lanes) and write (offset, lanes, value); the host completes requests (mask), gives a fault word, adds a count to the cycles, and updates a mirror (offset, mask, value).
#[derive(Clone, Copy)]
pub enum WindowEvent {
    WindowRead(u32, u32),
    WindowWrite(u32, u32, u32),
    Complete(u32),
    Fault(u32),
    AddCycles(u32),
    MirrorUpdate(u32, u32, u32),
}

// What can happen: a guest's read (offset, lanes) and write (offset, lanes, value), through the ports too (port, width, value); the host's update (offset, mask, value) and end signal; a platform reset; and what happens in the window.
#[derive(Clone, Copy)]
pub enum Event {
    Read(u32, u32),
    Write(u32, u32, u32),
    PortRead(u16, u32),
    PortWrite(u16, u32, u32),
    HostUpdate(u32, u8, u8),
    EndSignal,
    PlatformReset,
    InWindow(WindowEvent),
}
