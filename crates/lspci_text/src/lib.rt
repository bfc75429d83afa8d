// The 256 bytes as `lspci -n -xxx` prints them, so that `lspci -F FILE` decodes them.
#![tactic(auto)]

ghost use Rattle.std.specs.Prelude.{◌≡◌, ◌++◌, ◌+◌, ◌<◌, ◌≤◌, length};
ghost use Rattle.lspci_text.specs.Dump.{join_from, cell_text, row_text, dump_text};

use text_pieces::Text;

// Byte i after a space.
#[tactic(auto, unfolding(crate::specs::Dump::cell_text))]
fn put_cell<const N: usize>(out: &mut Text<N>, b: &[u8; 256], i: usize)
    requires { (length out.old + 3 ≤ N) × (i < 256) }
    ensures put { out.new ≡ out.old ++ cell_text b.now i }
    ensures long { length out.new ≡ length out.old + 3 }
{
    out.put(b" ");
    lspci_head::put_pair(out, b[i]);
}

// Sixteen bytes from `at` on, each after a space.
#[tactic(auto, using(crate::proofs::Joined::next_piece, crate::proofs::Joined::last_piece))]
fn put_cells<const N: usize>(out: &mut Text<N>, b: &[u8; 256], at: usize)
    requires { (length out.old + 48 ≤ N) × (at + 16 ≤ 256) }
    ensures put { out.new ≡ out.old ++ join_from 16 (cell_text b.now) at }
    ensures long { length out.new ≡ length out.old + 48 }
{
    for i in at..at + 16 {
        put_cell(out, b, i);
    }
}

// Row j.
#[tactic(auto, unfolding(crate::specs::Dump::row_text))]
fn put_row<const N: usize>(out: &mut Text<N>, b: &[u8; 256], j: usize)
    requires { (length out.old + 52 ≤ N) × (j < 16) }
    ensures put { out.new ≡ out.old ++ row_text b.now j }
    ensures long { length out.new ≡ length out.old + 52 }
{
    let at = j * 16;
    lspci_head::put_pair(out, at as u8);
    out.put(b":");
    put_cells(out, b, at);
    out.put(b"\n");
}

#[tactic(auto, using(crate::proofs::Joined::next_piece, crate::proofs::Joined::last_piece))]
fn put_rows<const N: usize>(out: &mut Text<N>, b: &[u8; 256])
    requires { length out.old + 832 ≤ N }
    ensures put { out.new ≡ out.old ++ join_from 16 (row_text b.now) 0 }
    ensures long { length out.new ≡ length out.old + 832 }
{
    for j in 0..16 {
        put_row(out, b, j);
    }
}

// The whole dump.
#[tactic(auto, unfolding(crate::specs::Dump::dump_text))]
pub fn put_dump<const N: usize>(out: &mut Text<N>, b: &[u8; 256])
    requires { length out.old + 866 ≤ N }
    ensures put { out.new ≡ out.old ++ dump_text b.now }
    ensures upper_bound { length out.new ≤ length out.old + 866 }
{
    lspci_head::put_head(out, b);
    out.put(b"\n");
    put_rows(out, b);
    out.put(b"\n");
}
