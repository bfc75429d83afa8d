// The twin's entries over a state by value: guest read and write, host update, end signal, platform reset.
#![tactic(auto)]

ghost use Rattle.std.specs.Prelude.{◌≡◌};
ghost use Rattle.rules.specs.Guest.{write_of};
ghost use Rattle.rules.specs.Read.{read_of, image_of};
ghost use Rattle.rules.specs.Host.{host_of};
ghost use Rattle.rules.specs.Reset.{end_of};
ghost use Rattle.rules.specs.Fresh.{fresh_of};
ghost use Rattle.answer.specs.Said.{says};
ghost use Rattle.rules.specs.Answers.{stepped};

use answer::{Answer, Stepped};
use rules::State;

// The enabled bytes of the dword at `offset`.
pub fn read(s: State, offset: u32, lanes: u32) -> Answer
    ensures { says result ≡ read_of s offset lanes }
{
    let t = s;
    guest_read::read(&t.bytes, t.flags.busy, offset, lanes)
}

// The 256 bytes as a guest reads them: what a capability walk goes over.
pub fn image(s: State) -> [u8; 256]
    ensures { result ≡ image_of s }
{
    let t = s;
    guest_read::image(&t.bytes, t.flags.busy)
}

// A guest write of the enabled bytes of `value` to the dword at `offset`; it may start a function reset, and while one is under way it is dropped.
pub fn write(s: State, offset: u32, lanes: u32, value: u32) -> Stepped<State>
    ensures { stepped result ≡ write_of s offset lanes value }
{
    let guest = map::all_guests();
    let mut t = s;
    let answer = guest_write::write(&mut t.bytes, &guest, &mut t.flags, offset, lanes, value);
    Stepped { answer, state: t }
}

// The device's own change of the bits under `mask`, in the byte at `offset`.
pub fn host_update(s: State, offset: u32, mask: u8, value: u8) -> Stepped<State>
    ensures { stepped result ≡ host_of s offset mask value }
{
    let host = map::all_hosts();
    let mut t = s;
    let answer = host_updates::host_update(&mut t.bytes, &host, offset, mask, value);
    Stepped { answer, state: t }
}

// The host's end signal: the function reset that is under way ends.
pub fn end_signal(s: State) -> State
    ensures { result ≡ end_of s }
{
    let mut t = s;
    function_reset::end(&mut t.bytes, &mut t.flags);
    t
}

// The state from which everything starts.
pub fn fresh() -> State
    ensures { result ≡ fresh_of }
{
    let bytes = map::all_defaults();
    let flags = function_reset::fresh_flags();
    let window = function_reset::fresh_window();
    State {
        bytes,
        latch: 0,
        flags,
        window,
    }
}

// A platform reset returns everything to the fresh state.
pub fn platform_reset(_s: State) -> State
    ensures { result ≡ fresh_of }
{
    fresh()
}
