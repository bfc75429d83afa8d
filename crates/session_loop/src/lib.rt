// A session of any machine that answers lines: what such a machine is, the lines of a text, one read of standard input and its lines, and all of standard input.
#![tactic(auto)]

ghost use Rattle.std.specs.Prelude.{◌≡◌, ◌+◌, ◌*◌, ◌<◌, ◌≤◌, ℕ, List, [], ◌++◌, length, take, drop, IfOk, OnErr, ◌≢◌};
ghost use Rattle.session.specs.Session.{played, follow, play_text, all_lines, after};
ghost use Rattle.session.specs.Turn.{Led};
ghost use Rattle.session_loop.specs.Turn.{Kept, Ended, Turned};

use std::io;
use std::io::{Error, ErrorKind, Input};
use text_pieces::Text;

// What answers lines, one after another, each without its LF, into texts of at most N bytes. N would be the method's own, but a trait's method cannot have one yet.
pub trait Machine<const N: usize> {
    // What a line does, and what it says.
    ghost next: { Self → List ℕ → Self };

    ghost say: { Self → List ℕ → List ℕ };

    // The first `most` bytes of a line say all, and an answer has at most `widest`.
    ghost most: { ℕ };

    ghost widest: { ℕ };

    // As a number, for what is kept of an unfinished line.
    fn kept() -> usize
        ensures { result ≡ most };

    // One line.
    fn answer(&mut self, line: &[u8], out: &mut Text<N>)
        requires { length out.old + widest ≤ N }
        ensures next { self.new ≡ next self.old line.now }
        ensures said { out.new ≡ out.old ++ say self.old line.now }
        ensures upper_bound { length out.new ≤ length out.old + widest };

    // That they say all, and are not none.
    ghost some: { 0 < most };

    ghost next_alike: { (s : Self) (l k : List ℕ) → take most l ≡ take most k → next s l ≡ next s k };

    ghost say_alike: { (s : Self) (l k : List ℕ) → take most l ≡ take most k → say s l ≡ say s k };
}

// What a turn comes to: so many bytes of an unfinished line are kept, or the input has ended.
#[derive(Clone, Copy, Debug, PartialEq, Eq)]
pub enum Heard {
    More(usize),
    Over,
}

// The complete lines of a text, one after another. The unfinished line starts at the result: so the loop goes by places, and not by pieces.
pub fn play<M: Machine<N>, const N: usize>(machine: &mut M, text: &[u8], out: &mut Text<N>) -> usize
    requires { length out.old + M.widest * length text.now ≤ N }
    ensures played { follow out.old (play_text M.next M.say machine.old [] text.now) ≡ played machine.new out.new (drop result text.now) }
    ensures within { result ≤ length text.now }
{
    // by lines, whose ends are not known before
    let mut at: usize = 0;
    while at < text.len() {
        let end = session_split::line_end(text, at);
        if text.len() <= end {
            return at;
        }
        machine.answer(&text[at..end], out);
        at = end + 1;
    }
    at
}

// The last line, which lacks its LF; where nothing is left there is none.
fn last<M: Machine<N>, const N: usize>(machine: &mut M, line: &[u8], out: &mut Text<N>)
    requires { (out.old ≡ []) × (M.widest ≤ N) }
    ensures { Ended M.next M.say machine.old line.now machine.new out.new }
{
    if !line.is_empty() {
        machine.answer(line, out);
    }
}

// What was read is played, up to `end`, and the first bytes of the unfinished line are kept: so many.
fn block<M: Machine<N>, const N: usize>(
    machine: &mut M,
    buf: &mut [u8],
    end: usize,
    out: &mut Text<N>,
) -> usize
    requires end { end ≤ length buf.old }
    requires room { length out.old + M.widest * end ≤ N }
    ensures played { (rest : List ℕ) × (follow out.old (play_text M.next M.say machine.old [] (take end buf.old)) ≡ played machine.new out.new rest) × (take M.most rest ≡ take result buf.new) }
    ensures kept { (result ≤ M.most) × (length buf.new ≡ length buf.old) }
{
    let at = play(machine, &buf[..end], out);
    session_split::keep_first(buf, at, end, M::kept())
}

// Reads once behind the kept bytes, answers each line that is then complete, and keeps the unfinished one. Where the read fails nothing is carried out.
pub fn turn<R: Input + Eprint + AllocGlobal, M: Machine<N>, const N: usize>(
    rt: &R,
    machine: &mut M,
    buf: &mut [u8],
    kept: usize,
    out: &mut Text<N>,
) -> io::Result<Heard>
    requires kept { kept < length buf.old }
    requires room { M.widest * length buf.old ≤ N }
    ensures turned { Turned M.next M.say M.most result machine.old (take kept buf.old) machine.new out.new buf.new }
    ensures kept { IfOk result (Kept M.most) × (length buf.new ≡ length buf.old) }
{
    out.clear();
    let n = streams::fill(rt, buf, kept)?;
    if n == 0 {
        last(machine, &buf[..kept], out);
        return Ok(Heard::Over);
    }
    Ok(Heard::More(block(machine, buf, kept + n, out)))
}

// What a turn says goes out. The end of the input stays the end, whether that was taken or not.
fn say<R: Print + Eprint + AllocGlobal>(rt: &R, text: &[u8], heard: Heard) -> io::Result<Heard>
    ensures same { IfOk result (λ h. h ≡ heard) }
    ensures end { OnErr result (heard ≢ Heard.Over) }
{
    let put = streams::put(rt, text);
    if let Heard::More(_) = heard {
        put?;
    }
    Ok(heard)
}

// Standard input in blocks, the answers of each block in one write, until the input ends or something fails.
pub fn session<R: Input + Print + Eprint + AllocGlobal, M: Machine<N>, const N: usize>(
    rt: &R,
    machine: &mut M,
    buf: &mut [u8],
    out: &mut Text<N>,
) -> io::Result<()>
    requires block { M.most < length buf.old }
    requires room { M.widest * length buf.old ≤ N }
    ensures led { Led M.next M.say M.most result machine.old machine.new }
    ensures lines { IfOk result (λ _. (xs : List ℕ) × (after M.next M.say machine.old (all_lines xs) ≡ machine.new)) }
{
    let mut kept: usize = 0;
    for _ in 0..streams::endless() {
        let heard = turn(rt, machine, buf, kept, out)?;
        match say(rt, out.as_slice(), heard)? {
            Heard::More(n) => kept = n,
            Heard::Over => return Ok(()),
        }
    }
    Err(Error::from(ErrorKind::Interrupted))
}
