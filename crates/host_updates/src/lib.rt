// A host update, over 256 bytes that are lent: one byte, under the host masks that are lent beside them.
#![tactic(auto)]

ghost use Rattle.std.specs.Prelude.{◌≡◌, ◌<◌};
ghost use Rattle.host_updates.specs.Update.{hosted_bytes, update_bytes, updated};

use answer::{Answer, Refusal};

// The bits of byte `i` under the mask take the value's bits.
#[tactic(auto, unfolding(crate::specs::Update::hosted_bytes))]
fn put_host(m: &mut [u8; 256], i: usize, mask: u8, value: u8)
    requires { i < 256 }
    ensures { m.new ≡ hosted_bytes m.old i mask value }
{
    m[i] = bits::blend(mask, m[i], value);
}

// A host update of the byte at `offset`: refused where the mask has a bit outside the host mask.
#[tactic(auto, unfolding(crate::specs::Update::update_bytes))]
pub fn host_update(m: &mut [u8; 256], host: &[u8; 256], offset: u32, mask: u8, value: u8) -> Answer
    ensures { updated result m.new ≡ update_bytes host.now m.old offset mask value }
{
    if 255 < offset {
        return Err(Refusal::Offset);
    }
    let o = offset as usize;
    let outside = bits::blend(host[o], mask, 0);
    if outside != 0 {
        return Err(Refusal::NotHost);
    }
    put_host(m, o, mask, value);
    Ok(None)
}
