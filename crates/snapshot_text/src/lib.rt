// The 256 bytes as a guest reads them, in the form of `lspci -n -xxx`.
#![tactic(auto)]

ghost use Rattle.std.specs.Prelude.{◌≡◌, ◌++◌, ◌+◌, ◌≤◌, length};
ghost use Rattle.rules.specs.Read.{image_of};
ghost use Rattle.lspci_text.specs.Dump.{dump_text};

use rules::State;
use text_pieces::Text;

// The dump of what a guest reads.
pub fn show<const N: usize>(s: State, out: &mut Text<N>)
    requires { length out.old + 866 ≤ N }
    ensures put { out.new ≡ out.old ++ dump_text (image_of s) }
    ensures upper_bound { length out.new ≤ length out.old + 866 }
{
    lspci_text::put_dump(out, &twin::image(s));
}
