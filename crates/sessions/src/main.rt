// Sessions with the answers that document 01 has for them, a text on standard input, are played on the desk. A line is printed for each: its name and `ok`, or
// what differs.
#![tactic(auto)]

mod calls;
mod judging;
mod playing;
mod spelling;
mod text;

use playing::play;
use std::io::{Read, Write};
use streams::read_full;

// Room for the text: about twice what it has.
const TEXT_BYTES: usize = 65536;

// Whether the input ends here.
fn ended<I: Read>(input: &mut I) -> bool {
    matches!(input.read(&mut [0]), Ok(0))
}

fn main(rt: HostRuntime) {
    let mut input = rt.stdin();
    let mut output = rt.stdout();
    let mut text = [0u8; TEXT_BYTES];
    let n = read_full(&mut input, &mut text);
    if ended(&mut input) {
        play(&mut output, &text[..n]);
    } else {
        let _ = output.write_all(
            b"the text is not read to its end: a read failed, or there is no room for it\n",
        );
    }
}
