// A snapshot over standard input: a session of console lines played silently, and the 256 bytes as a guest reads them then, in the form of `lspci -n -xxx`.
#![tactic(auto)]

ghost use Rattle.std.specs.Prelude.{◌≡◌, ℕ, List, [], IfOk};
ghost use Rattle.rules.specs.declared.State.{State};
ghost use Rattle.console_lines.specs.Console.{line_next};
ghost use Rattle.console_lines.specs.Alike.{some, next_alike};
ghost use Rattle.snapshot_session.specs.Shown.{Played, PlayedInBlocks, Shown};
ghost use Rattle.snapshot_session.specs.Silence.{silence, silence_alike};

use console_lines::Console;
use rules::State;
use session_loop::Machine;
use std::io;
use std::io::Input;
use std::marker::Model;
use text_pieces::Text;

// The text of a dump is so long at most.
pub const DUMP: usize = 866;

// A console whose answers are not wanted: it is heard silently, from any state, and the state is had from it afterwards.
#[derive(Drop)]
pub struct Silent {
    pub console: Console,
}

impl Model for Silent {
    ghost Value = { State };

    ghost view = { λ s. s.console };
}

impl<const N: usize> Machine<N> for Silent {
    ghost next = { line_next };

    ghost say = { silence };

    ghost most = { 27 };

    ghost widest = { 0 };

    ghost some = { some };

    ghost next_alike = { next_alike };

    ghost say_alike = { silence_alike };

    fn kept() -> usize {
        console_lines::MOST
    }

    fn answer(&mut self, line: &[u8], _out: &mut Text<N>) {
        self.console.reply(line);
    }
}

// The state after all of standard input, from the fresh one; none where that did not end, but a read failed.
fn played<R: Input + Print + Eprint + AllocGlobal>(rt: &R) -> io::Result<State>
    ensures lines { IfOk result Played }
    ensures blocks { IfOk result PlayedInBlocks }
{
    let mut silent = Silent {
        console: Console {
            state: twin::fresh(),
        },
    };
    let mut buf = [0; console_lines::BUFFER];
    let mut nothing = Text::<0>::new();
    session_loop::session(rt, &mut silent, &mut buf, &mut nothing)?;
    let console = silent.console;
    Ok(console.state)
}

// The dump of what a guest reads then.
#[tactic(auto, using(crate::proofs::Blocks::shown_in_blocks))]
pub fn snap<R: Input + Print + Eprint + AllocGlobal>(rt: &R) -> io::Result<Text<DUMP>>
    ensures { IfOk result Shown }
{
    let state = played(rt)?;
    let mut dump = Text::<DUMP>::new();
    snapshot_text::show(state, &mut dump);
    Ok(dump)
}
