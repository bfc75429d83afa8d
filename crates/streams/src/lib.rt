// Bytes from standard input, a block at a time, and to standard output. A call that a signal interrupts is made again; what fails is told on standard error.
#![tactic(auto)]

ghost use Rattle.std.specs.Prelude.{◌≡◌, ◌+◌, ◌≤◌, IfOk, length, take};

use std::io;
use std::io::{Error, ErrorKind, Input, Read};

// How often a loop goes round at most: every loop ends, and none before any input that there is.
pub fn endless() -> u64
    ensures { result ≡ 18446744073709551615 }
{
    u64::MAX
}

// ---- what fails

// A line on standard error: what failed, a colon, and the system's words without its number. What cannot be told is let go.
pub fn fail<R: Eprint + AllocGlobal>(rt: &R, what: &str, error: Error) {
    let told = match format!(in rt.alloc(); "{error}") {
        Ok(text) => match text.as_str().split_once(" (os error ") {
            Some((reason, _)) => eprintln!(rt; "{what}: {reason}"),
            None => eprintln!(rt; "{what}: {text}"),
        },
        Err(_) => eprintln!(rt; "{what}: {error}"),
    };
    told.is_ok();
}

// ---- reading

// Reads once, behind the k bytes that are kept, which stay as they are; none come where the input has ended.
fn read_once<F: Read>(from: &mut F, buf: &mut [u8], k: usize) -> io::Result<usize>
    requires { k ≤ length buf.old }
    ensures bound { IfOk result (λ n. k + n ≤ length buf.new) }
    ensures kept { (length buf.new ≡ length buf.old) × (take k buf.new ≡ take k buf.old) }
{
    from.read(&mut buf[k..])
}

// The same, again where a signal interrupts it.
pub fn read<F: Read>(from: &mut F, buf: &mut [u8], k: usize) -> io::Result<usize>
    requires { k ≤ length buf.old }
    ensures bound { IfOk result (λ n. k + n ≤ length buf.new) }
    ensures kept { (length buf.new ≡ length buf.old) × (take k buf.new ≡ take k buf.old) }
{
    for _ in 0..endless() {
        match read_once(from, buf, k) {
            Err(error) if error.kind() == ErrorKind::Interrupted => {}
            done => return done,
        }
    }
    Err(Error::from(ErrorKind::Interrupted))
}

// From standard input. What fails is told.
pub fn fill<R: Input + Eprint + AllocGlobal>(rt: &R, buf: &mut [u8], k: usize) -> io::Result<usize>
    requires { k ≤ length buf.old }
    ensures bound { IfOk result (λ n. k + n ≤ length buf.new) }
    ensures kept { (length buf.new ≡ length buf.old) × (take k buf.new ≡ take k buf.old) }
{
    let mut from = rt.reader();
    let got = read(&mut from, buf, k);
    if let Err(error) = got {
        fail(rt, "standard input", error);
    }
    got
}

// ---- writing

// Writes once what stands behind the first `done` bytes.
fn write_once<R: Print>(rt: &R, buf: &[u8], done: usize) -> io::Result<usize>
    requires { done ≤ length buf.now }
    ensures { IfOk result (λ n. done + n ≤ length buf.now) }
{
    rt.write_some(&buf[done..])
}

// Writes all of it.
pub fn write<R: Print>(rt: &R, buf: &[u8]) -> io::Result<()> {
    let mut done: usize = 0;
    for _ in 0..endless() {
        if done == buf.len() {
            return Ok(());
        }
        match write_once(rt, buf, done) {
            Ok(0) => return Err(Error::from(ErrorKind::WriteZero)),
            Ok(n) => done += n,
            Err(error) if error.kind() == ErrorKind::Interrupted => {}
            Err(error) => return Err(error),
        }
    }
    Err(Error::from(ErrorKind::WriteZero))
}

// All of it to standard output. What fails is told.
pub fn put<R: Print + Eprint + AllocGlobal>(rt: &R, buf: &[u8]) -> io::Result<()> {
    let put = write(rt, buf);
    if let Err(error) = put {
        fail(rt, "standard output", error);
    }
    put
}
