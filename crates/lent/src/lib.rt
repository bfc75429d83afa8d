// The state lent as one record, and updated where it lies: what a bench in C, or in any language that calls C, links.
#![tactic(auto)]

ghost use Rattle.std.specs.Prelude.{◌≡◌};
ghost use Rattle.rules.specs.Guest.{write_of};
ghost use Rattle.rules.specs.Read.{read_of};
ghost use Rattle.rules.specs.Fresh.{fresh_of};
ghost use Rattle.probe.specs.Probe.{probe_of};
ghost use Rattle.walk.specs.Walk.{walk_of};
ghost use Rattle.asked.specs.Asked.{answer, range, item};
ghost use Rattle.door_told.specs.Heard.{heard, heard_of};
ghost use Rattle.door_write.specs.Outside.{outside};
ghost use Rattle.door_write.specs.Numbered.{leaves, numbered};
ghost use Rattle.door_step.specs.Door.{door_of};

use rules::State;

// A platform reset; also what makes a record the fresh state.
#[unsafe(no_mangle)]
pub extern "C" fn twin_platform_reset(s: &mut State)
    ensures { s.new ≡ fresh_of }
{
    *s = twin::fresh();
}

// A guest write; it may start a function reset, and while one is under way it is dropped. The result is the refusal's number, 0 where it is accepted.
// The record is lent on, so nothing is copied.
#[unsafe(no_mangle)]
pub extern "C" fn twin_write(s: &mut State, offset: u32, lanes: u32, value: u32) -> u32
    ensures { leaves result s.new ≡ numbered (write_of s.old offset lanes value) }
{
    door_write::number(door_write::put(s, offset, lanes, value))
}

// The same above the by-value step: the record is copied in, and its state out.
#[unsafe(no_mangle)]
pub extern "C" fn twin_write_by_value(s: &mut State, offset: u32, lanes: u32, value: u32) -> u32
    ensures { leaves result s.new ≡ numbered (write_of s.old offset lanes value) }
{
    let w = door_write::write(*s, offset, lanes, value);
    *s = w.state;
    w.number
}

// A guest read. The record's bytes are lent on here too.
#[unsafe(no_mangle)]
pub extern "C" fn twin_read(s: &State, offset: u32, lanes: u32) -> u64
    ensures { heard result ≡ heard_of (answer (read_of s.now offset lanes)) }
{
    door_write::bytes_fit(&s.bytes);
    door_told::read(&s.bytes, s.flags.busy, offset, lanes)
}

// The operation of number `op`.
#[unsafe(no_mangle)]
pub extern "C" fn twin_do(s: &mut State, op: u32, a: u32, b: u32, c: u32) -> u64
    ensures { outside (heard result) s.new ≡ door_of s.old op a b c }
{
    door_step::operate(s, op, a, b, c)
}

// A size probe.
#[unsafe(no_mangle)]
pub extern "C" fn twin_probe(low: u32, high: u32) -> u64
    ensures { heard result ≡ heard_of (range (probe_of low high)) }
{
    door_told::probe(low, high)
}

// A capability walk over any bytes.
#[unsafe(no_mangle)]
pub extern "C" fn twin_walk(bytes: &[u8], wanted: u8) -> u64
    ensures { heard result ≡ heard_of (item (walk_of bytes.now wanted)) }
{
    door_told::walk(bytes, wanted)
}
