// The sheet's file that a program's argument names: read, checked, and refused with a number for the session and a sentence for a person.
#![tactic(auto)]

ghost use Rattle.std.specs.Prelude.{◌≡◌, ◌≤◌, IfErr, IfOk, IfSome, IsErr, IsOk, is_ok, length, take};
ghost use Rattle.sheet_rules.specs.Check.{check_of};

use sheet_rules::SheetFault;
use std::env::{Env, FillError};
use std::fs::File;
use std::io;
use std::io::{Error, ErrorKind, Read, Write};
use std::rt::Files;

// Room for a sheet of any length, and a byte more, by which a longer file is known: `sheet_faults::LONGEST`, and one.
const ROOM: usize = sheet_faults::LONGEST + 1;

// The system's number of 'File name too long'.
const TOO_LONG: i32 = 36;

// ---- reading

// Reads until the buffer is full or the file ends.
fn read_all<F: Read>(file: &mut F, buf: &mut [u8]) -> io::Result<usize>
    ensures bound { IfOk result (λ n. n ≤ length buf.new) }
    ensures kept { length buf.new ≡ length buf.old }
{
    // how many reads there are is not known: one may give less than there is room for
    let mut k = 0;
    while k < buf.len() {
        let n = streams::read(file, buf, k)?;
        if n == 0 {
            break;
        }
        k += n;
    }
    Ok(k)
}

// Opens the file and reads it.
fn read_file<R: Files>(rt: &R, path: &str, buf: &mut [u8]) -> io::Result<usize>
    ensures bound { IfOk result (λ n. n ≤ length buf.new) }
    ensures kept { length buf.new ≡ length buf.old }
{
    let mut file = File::open(rt, path)?;
    read_all(&mut file, buf)
}

// Reads the file of that name. What fails is told on standard error.
fn read_named<R: Files + Eprint + AllocGlobal>(rt: &R, name: &[u8], buf: &mut [u8]) -> Option<usize>
    ensures bound { IfSome result (λ n. n ≤ length buf.new) }
    ensures kept { length buf.new ≡ length buf.old }
{
    let Ok(path) = str::from_utf8(name) else {
        streams::fail(rt, "the sheet's name", Error::from(ErrorKind::InvalidInput));
        return None;
    };
    match read_file(rt, path, buf) {
        Ok(n) => Some(n),
        Err(error) => {
            streams::fail(rt, path, error);
            None
        }
    }
}

// The bytes of the program's only argument, at the start of `name`. Where there is none, or another number of them, or one that is too long, that is said.
fn argument<R: Env + Eprint + AllocGlobal>(rt: &R, name: &mut [u8]) -> Option<usize>
    ensures { IfSome result (λ n. n ≤ length name.new) }
{
    let is_last = matches!(rt.arg(2, name), Err(FillError::NotPresent));
    match rt.arg(1, name) {
        Ok(n) if is_last => return Some(n),
        Err(FillError::TooLong) if is_last => {
            streams::fail(rt, "the sheet's name", Error::from_raw_os_error(TOO_LONG));
        }
        _ => {
            eprintln!(rt; "one argument is wanted: the name of a register sheet's file").is_ok();
        }
    }
    None
}

// ---- the sheet

// A sheet that is not refused: the first `n` bytes.
#[derive(Clone, Copy)]
pub struct Held {
    pub bytes: [u8; ROOM],
    pub n: usize,
    ghost in_bounds: { n ≤ 1282 },
    ghost accepted: { IsOk (check_of (take n bytes)) },
}

impl Held {
    // The sheet's bytes.
    pub fn sheet(&self) -> &[u8]
        ensures value { result.now ≡ take self.now.n self.now.bytes }
        ensures accepted { IsOk (check_of result.now) }
    {
        &self.bytes[..self.n]
    }
}

// What is refused: the first `n` bytes, none where nothing was read.
#[derive(Clone, Copy)]
pub struct Withheld {
    pub bytes: [u8; ROOM],
    pub n: usize,
    ghost in_bounds: { n ≤ 1282 },
    ghost refused: { IsErr (check_of (take n bytes)) },
}

// `NO n`, with the refusal's number, which has two digits; and the fault in a sentence.
fn tell<R: Print + Eprint + AllocGlobal>(rt: &R, s: &[u8], fault: SheetFault) {
    let n = sheet_check::number(Err(fault));
    let mut line = [0; 6];
    writeln!(&mut line[..], "NO {n}").is_ok();
    let _ = streams::put(rt, &line);
    sheet_faults::complain(rt, s, fault);
}

// Whether what was read is a sheet; where it is none, that is said. The first 1,282 bytes of a longer file have its first fault:
// what is asked before the total length lies in the contents, at most 257 bytes, and no total that entries say is above 1,281.
fn judge<R: Print + Eprint + AllocGlobal>(rt: &R, s: &[u8]) -> bool
    ensures { result ≡ is_ok (check_of s.now) }
{
    match sheet_check::check(s) {
        Ok(()) => true,
        Err(fault) => {
            tell(rt, s, fault);
            false
        }
    }
}

// Reads the file that the program's only argument names, at most a byte more than the longest sheet, and checks it: it is held exactly where it is not refused.
#[tactic(auto, unfolding(sheet_rules::specs::Check::check_of))]
pub fn named<R: Files + Env + Print + Eprint + AllocGlobal>(rt: &R) -> Result<Held, Withheld>
    ensures held { IfOk result (λ h. (h.n ≤ length h.bytes) × IsOk (check_of (take h.n h.bytes))) }
    ensures withheld { IfErr result (λ w. (w.n ≤ length w.bytes) × IsErr (check_of (take w.n w.bytes))) }
{
    let mut bytes = [0; ROOM];
    let mut name = [0; 4096];
    let Some(length) = argument(rt, &mut name) else {
        return Err(Withheld { bytes, n: 0 });
    };
    let Some(n) = read_named(rt, &name[..length], &mut bytes) else {
        return Err(Withheld { bytes, n: 0 });
    };
    if judge(rt, &bytes[..n]) {
        Ok(Held { bytes, n })
    } else {
        Err(Withheld { bytes, n })
    }
}
