// A session on the device of a register sheet: the sheet's file name is the argument, standard input is the session.
#![tactic(auto)]

use player_line::{ANSWERS, BUFFER, SheetPlayer};
use text_pieces::Text;

fn main(rt: HostRuntime) {
    let Ok(held) = sheet_file::named(&rt) else {
        return;
    };
    let loaded = sheet_load::load(held.sheet());
    let mut player = SheetPlayer::new(loaded.tables);
    let mut buf = [0; BUFFER];
    let mut out = Text::<ANSWERS>::new();
    let _ = session_loop::session(&rt, &mut player, &mut buf, &mut out);
}
