// The machines that answer lines over 256 bytes that they hold: the session player and a sheet's device, each by the rows that it takes.
#![tactic(auto)]

ghost use Rattle.std.specs.Prelude.{◌≡◌, true, false, ◌++◌, ◌+◌, ◌≤◌, length};
ghost use Rattle.map.specs.Map.{defaults, resets};
ghost use Rattle.rules.specs.Fresh.{fresh_of, fresh_flags};
ghost use Rattle.player_line.specs.Box.{Box, box, line_box, line_text};
ghost use Rattle.player_line.specs.Boxed.{boxed, boxed_with};
ghost use Rattle.player_line.specs.Alike.{next_alike, say_alike, some};

use plain_device::Tables;
use rules::Flags;
use session_loop::Machine;
use std::marker::Model;
use text_pieces::Text;

// Bytes of an unfinished line that are kept: more than any line that is of a form has.
const MOST: usize = 16;

// What is kept of a line, and a block of 8192 bytes.
pub const BUFFER: usize = 8208;

// An answer has at most 12 bytes, and a line at least one.
pub const ANSWERS: usize = 98496;

// The session player: the masks of the built-in map, and the bytes and flags of a state.
#[derive(Drop)]
pub struct SessionPlayer {
    guests: [u8; 256],
    hosts: [u8; 256],
    bytes: [u8; 256],
    flags: Flags,
}

impl Model for SessionPlayer {
    ghost Value = { Box };

    ghost view = { λ p. box false defaults p.guests p.hosts resets p.bytes p.flags };
}

impl SessionPlayer {
    // In the fresh state.
    #[tactic(auto, unfolding(rules::specs::Fresh::fresh_of))]
    pub fn new() -> Self
        ensures { result ≡ boxed fresh_of }
    {
        SessionPlayer::holding(
            map::all_guests(),
            map::all_hosts(),
            map::all_defaults(),
            function_reset::fresh_flags(),
        )
    }

    // With any masks, bytes and flags.
    pub fn holding(guests: [u8; 256], hosts: [u8; 256], bytes: [u8; 256], flags: Flags) -> Self
        ensures { result ≡ box false defaults guests hosts resets bytes flags }
    {
        SessionPlayer {
            guests,
            hosts,
            bytes,
            flags,
        }
    }

    // The bytes that it holds, as after a session.
    pub fn bytes(&self) -> &[u8; 256]
        ensures { result.now ≡ self.now.bytes }
    {
        &self.bytes
    }

    // And its flags.
    pub fn flags(&self) -> Flags
        ensures { result ≡ self.now.flags }
    {
        self.flags
    }
}

impl<const N: usize> Machine<N> for SessionPlayer {
    ghost next = { line_box };

    ghost say = { line_text };

    ghost most = { 16 };

    ghost widest = { 12 };

    ghost some = { some };

    ghost next_alike = { next_alike };

    ghost say_alike = { say_alike };

    fn kept() -> usize {
        MOST
    }

    fn answer(&mut self, line: &[u8], out: &mut Text<N>) {
        let q = line_table::parse_player(line);
        let a = player_step::ask(
            &self.guests,
            &self.hosts,
            &mut self.bytes,
            &mut self.flags,
            q,
        );
        text_answer::put(out, a);
    }
}

// A sheet's device: its tables, and the bytes that it holds.
#[derive(Drop)]
pub struct SheetPlayer {
    tables: Tables,
    bytes: [u8; 256],
}

// It has no flags: those of the box are never read, and stay.
impl Model for SheetPlayer {
    ghost Value = { Box };

    ghost view = { λ p. boxed_with p.tables fresh_flags p.bytes };
}

impl SheetPlayer {
    // With the defaults.
    pub fn new(tables: Tables) -> Self
        ensures { result ≡ boxed_with tables fresh_flags tables.defaults }
    {
        let bytes = tables.defaults;
        SheetPlayer::holding(tables, bytes)
    }

    // With any bytes.
    pub fn holding(tables: Tables, bytes: [u8; 256]) -> Self
        ensures { result ≡ boxed_with tables fresh_flags bytes }
    {
        SheetPlayer { tables, bytes }
    }

    // The bytes that it holds, as after a session.
    pub fn bytes(&self) -> &[u8; 256]
        ensures { result.now ≡ self.now.bytes }
    {
        let SheetPlayer { bytes, .. } = self;
        bytes
    }
}

impl<const N: usize> Machine<N> for SheetPlayer {
    ghost next = { line_box };

    ghost say = { line_text };

    ghost most = { 16 };

    ghost widest = { 12 };

    ghost some = { some };

    ghost next_alike = { next_alike };

    ghost say_alike = { say_alike };

    fn kept() -> usize {
        MOST
    }

    fn answer(&mut self, line: &[u8], out: &mut Text<N>) {
        let q = sheet_lines::parse(line);
        let Tables {
            defaults,
            guests,
            hosts,
            resets,
        } = &self.tables;
        let a = sheet_step::ask(defaults, guests, hosts, resets, &mut self.bytes, q);
        text_answer::put(out, a);
    }
}
