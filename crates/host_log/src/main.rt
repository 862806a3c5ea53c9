// What the host sees: a request from standard input is run as the desk's program runs it, and its log printed, a word a line.
// Rests on console.
#![tactic(auto)]

fn main(rt: HostRuntime) {
    // As much as the desk's program reads.
    let mut bytes = [0u8; 8208];
    let size = console::read_full(&mut rt.stdin(), &mut bytes);
    let mut text = [0u8; 139264];
    let length = console::host_text(&bytes[..size], &mut text);
    if rt.write_all(&text[..length]).is_err() {
        let _ = rt.eprintln("host_log: the log was not written whole");
    }
}
