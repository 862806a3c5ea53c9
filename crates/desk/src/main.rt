// The desk's program: a request from standard input, its answer to standard output; with the argument `all`, the lines of unreached yards too.
// Rests on console.
#![tactic(auto)]

use std::env::Env;

fn main(rt: HostRuntime) {
    // One word more than the longest request: nothing beyond it is read, and the text of a longer input is that of its first 8,208 bytes
    // (printing's `cut`).
    let mut bytes = [0u8; 8208];
    let size = console::read_full(&mut rt.stdin(), &mut bytes);
    // One byte more than `all` has: a longer argument is an error, as a missing one is, and both count as none.
    let mut argument = [0u8; 4];
    let given = rt.arg(1, &mut argument).unwrap_or(0);
    let mut text = [0u8; 67374];
    let length = console::desk_text(&argument[..given], &bytes[..size], &mut text);
    if rt.write_all(&text[..length]).is_err() {
        let _ = rt.eprintln("desk: the answer was not written whole");
    }
}
