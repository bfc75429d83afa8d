// A register sheet as a table: the sheet's file name is the argument.
#![tactic(auto)]

use text_pieces::Text;

fn main(rt: HostRuntime) {
    let Ok(held) = sheet_file::named(&rt) else {
        return;
    };
    // a line of 82 bytes for the heading and for as many entries as a byte can say
    let mut out = Text::<20992>::new();
    sheet_table::table(held.sheet(), &mut out);
    let _ = streams::put(&rt, out.as_slice());
}
