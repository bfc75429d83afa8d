// The console: a machine that answers lines, over a state by value.
#![tactic(auto)]

ghost use Rattle.std.specs.Prelude.{◌≡◌, ◌++◌, ◌+◌, ◌≤◌, length};
ghost use Rattle.rules.specs.declared.State.{State};
ghost use Rattle.asked.specs.Asked.{response_of, told_says};
ghost use Rattle.text_shown.specs.Answers.{said_text};
ghost use Rattle.console_lines.specs.Console.{asks, line_next, line_say};
ghost use Rattle.console_lines.specs.Alike.{some, next_alike, say_alike};

use asked::Told;
use rules::State;
use session_loop::Machine;
use std::marker::Model;
use text_pieces::Text;

// Bytes of an unfinished line that are kept: more than any line that is of a form has.
pub const MOST: usize = 27;

// What is kept of a line, and a block of 4096 bytes.
pub const BUFFER: usize = 4123;

// An answer has at most 24 bytes, and a line at least one.
pub const ANSWERS: usize = 98952;

// The line of what is told.
#[tactic(auto, unfolding(text_shown::specs::Answers::said_text))]
fn put<const N: usize>(out: &mut Text<N>, t: Told)
    requires { length out.old + 24 ≤ N }
    ensures put { out.new ≡ out.old ++ said_text (told_says t) }
    ensures upper_bound { length out.new ≤ length out.old + 24 }
{
    match t {
        Told::Answer(a) => text_answer::put(out, a),
        Told::Shown(w) => text_shown::put_shown(out, w),
    }
}

// The console is seen as its state.
#[derive(Drop)]
pub struct Console {
    pub state: State,
}

impl Model for Console {
    ghost Value = { State };

    ghost view = { λ c. c.state };
}

impl Console {
    // What is told to a line.
    pub fn reply(&mut self, line: &[u8]) -> Told
        ensures state { self.new ≡ line_next self.old line.now }
        ensures told { told_says result ≡ (response_of (asks line.now) self.old).said }
    {
        let p = step::ask(self.state, line_table::parse(line));
        self.state = p.state;
        p.told
    }
}

impl<const N: usize> Machine<N> for Console {
    ghost next = { line_next };

    ghost say = { line_say };

    ghost most = { 27 };

    ghost widest = { 24 };

    ghost some = { some };

    ghost next_alike = { next_alike };

    ghost say_alike = { say_alike };

    fn kept() -> usize {
        MOST
    }

    fn answer(&mut self, line: &[u8], out: &mut Text<N>) {
        let told = self.reply(line);
        put(out, told);
    }
}
