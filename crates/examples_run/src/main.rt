// The paper's checked examples, run from fresh states: a function for each of its bullets, in its order.
#![tactic(auto)]

use examples_scan::{capability_walk, size_probe};
use examples_text::{end_signal, guest_read, guest_write, latch, port_read};
use std::io;
use twin::fresh;

fn vid2<R: Print>(rt: &R) -> io::Result<()> {
    guest_read(rt, fresh(), 0x00, 0xF)
}

fn pcicmd2<R: Print>(rt: &R) -> io::Result<()> {
    guest_read(
        rt,
        guest_write(rt, fresh(), 0x04, 0xF, 0xFFFFFFFF)?,
        0x04,
        0xF,
    )
}

fn gttmmadr<R: Print>(rt: &R) -> io::Result<()> {
    guest_read(
        rt,
        guest_write(rt, fresh(), 0x10, 0xF, 0xFFFFFFFF)?,
        0x10,
        0xF,
    )
}

fn gmadr<R: Print>(rt: &R) -> io::Result<()> {
    let s = guest_write(rt, fresh(), 0x18, 0xF, 0xFFFFFFFF)?;
    guest_read(rt, s, 0x18, 0xF)?;
    guest_read(rt, guest_write(rt, s, 0x60, 0x4, 0x00060000)?, 0x18, 0xF)
}

fn msac<R: Print>(rt: &R) -> io::Result<()> {
    guest_read(
        rt,
        guest_write(rt, fresh(), 0x60, 0x4, 0x00F40000)?,
        0x60,
        0x4,
    )
}

fn iobar<R: Print>(rt: &R) -> io::Result<()> {
    guest_read(
        rt,
        guest_write(rt, fresh(), 0x20, 0xF, 0xFFFFFFFF)?,
        0x20,
        0xF,
    )
}

fn capl<R: Print>(rt: &R) -> io::Result<()> {
    guest_read(
        rt,
        guest_write(rt, fresh(), 0x7C, 0x8, 0x01000000)?,
        0x34,
        0xF,
    )
}

fn pmcs<R: Print>(rt: &R) -> io::Result<()> {
    let s = guest_write(rt, fresh(), 0xD4, 0x1, 0x00000001)?;
    guest_read(rt, s, 0xD4, 0x1)?;
    guest_read(rt, guest_write(rt, s, 0xD4, 0x1, 3)?, 0xD4, 0x1)
}

fn swsci<R: Print>(rt: &R) -> io::Result<()> {
    let s = guest_write(rt, fresh(), 0xE8, 0x2, 0)?;
    guest_read(rt, guest_write(rt, s, 0xE8, 0xF, 0x00008001)?, 0xE8, 0xF)
}

fn svid2<R: Print>(rt: &R) -> io::Result<()> {
    let s = guest_write(rt, fresh(), 0x2C, 0x3, 0x00001234)?;
    let started = guest_write(rt, s, 0xA8, 0x1, 1)?;
    let ended = end_signal(rt, started)?;
    guest_read(
        rt,
        guest_write(rt, ended, 0x2C, 0x3, 0x0000FFFF)?,
        0x2C,
        0x3,
    )
}

fn port_pair<R: Print>(rt: &R) -> io::Result<()> {
    let s = latch(rt, fresh(), 0x80001000)?;
    port_read(rt, s, 0xCFE)?;
    port_read(rt, s, 0xCFF)
}

fn walks<R: Print>(rt: &R) -> io::Result<()> {
    capability_walk(rt, fresh(), 0x13)?;
    capability_walk(rt, fresh(), 0x10)
}

fn main(rt: HostRuntime) -> io::Result<()> {
    vid2(&rt)?;
    pcicmd2(&rt)?;
    gttmmadr(&rt)?;
    gmadr(&rt)?;
    msac(&rt)?;
    iobar(&rt)?;
    capl(&rt)?;
    pmcs(&rt)?;
    swsci(&rt)?;
    svid2(&rt)?;
    size_probe(&rt, 0xF000000C, 0xFFFFFFFF)?;
    port_pair(&rt)?;
    walks(&rt)
}
