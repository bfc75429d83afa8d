// The session player, from the fresh state.
#![tactic(auto)]

use player_line::{ANSWERS, BUFFER, SessionPlayer};
use text_pieces::Text;

fn main(rt: HostRuntime) {
    let mut player = SessionPlayer::new();
    let mut buf = [0; BUFFER];
    let mut out = Text::<ANSWERS>::new();
    let _ = session_loop::session(&rt, &mut player, &mut buf, &mut out);
}
