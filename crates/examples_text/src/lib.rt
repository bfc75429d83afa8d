// Guest accesses, direct and through the port pair, each made and written to standard output as the paper writes it.
#![tactic(auto)]

use examples_print::{Read, Written};
use rules::State;
use std::io;

// ---- direct

// The state that the write leaves; more follows in its line. An access's offset has two digits and its lanes one, whatever they are.
pub fn guest_write<R: Print>(
    rt: &R,
    s: State,
    offset: u32,
    lanes: u32,
    value: u32,
) -> io::Result<State> {
    let w = twin::write(s, offset, lanes, value);
    let answer = Written(w.answer);
    print!(rt;
        "W {:02X} {:X} {value:08X}{answer}, ",
        offset % 256,
        lanes % 16
    )?;
    Ok(w.state)
}

pub fn guest_read<R: Print>(rt: &R, s: State, offset: u32, lanes: u32) -> io::Result<()> {
    let read = Read {
        answer: twin::read(s, offset, lanes),
        digits: 8,
    };
    println!(rt; "R {:02X} {:X}{read}", offset % 256, lanes % 16)
}

// ---- the host's end signal

// The state that it leaves; more follows in its line.
pub fn end_signal<R: Print>(rt: &R, s: State) -> io::Result<State> {
    print!(rt; "E, ")?;
    Ok(twin::end_signal(s))
}

// ---- the port pair

// The state that a 4-byte write of `value` to CF8h leaves; more follows in its line.
pub fn latch<R: Print>(rt: &R, s: State, value: u32) -> io::Result<State> {
    let w = ports::port_write(s, 0xCF8, 4, value);
    let answer = Written(w.answer);
    print!(rt; "latch {value:08X}{answer}, ")?;
    Ok(w.state)
}

// Of two bytes. The port has three digits.
pub fn port_read<R: Print>(rt: &R, s: State, port: u16) -> io::Result<()> {
    let read = Read {
        answer: ports::port_read(s, port, 2),
        digits: 4,
    };
    println!(rt; "2-byte read at {:03X}{read}", port % 4096)
}
