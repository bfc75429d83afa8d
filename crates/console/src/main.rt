// The console: standard input in blocks, the answers of each block in one write.
#![tactic(auto)]

use console_lines::{ANSWERS, BUFFER, Console};
use text_pieces::Text;

fn main(rt: HostRuntime) {
    let mut console = Console {
        state: twin::fresh(),
    };
    let mut buf = [0; BUFFER];
    let mut out = Text::<ANSWERS>::new();
    let _ = session_loop::session(&rt, &mut console, &mut buf, &mut out);
}
