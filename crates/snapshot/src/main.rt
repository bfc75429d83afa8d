// A snapshot: plays a session of console lines silently, and writes the 256 bytes as a guest reads them in the form of `lspci -n -xxx`.
#![tactic(auto)]

fn main(rt: HostRuntime) {
    if let Ok(dump) = snapshot_session::snap(&rt) {
        let _ = streams::put(&rt, dump.as_slice());
    }
}
