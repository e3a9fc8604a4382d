// The padding report from standard input to standard output, request 11.
#![tactic(auto)]

mod taken; // taken.rt: the bytes of the two lines, and no byte after them
pub mod text; // text.rt: the text that they give

use system::System;
use taken::{MOST, Taken};
use words::text::ROOM;

// Prints what the first n bytes give.
fn print(system: System, bytes: &[u8; MOST], n: usize) {
    let mut room = [0u8; ROOM];
    let at = text::put_taken(system, &mut room, bytes, n);
    words::text::flush(system, &room, at);
}

// Reads the two lines, and prints the report or the refusal. Where a read fails, that is told and nothing is printed.
pub fn report(system: System) {
    let mut bytes = [0u8; MOST];
    match taken::take(system, &mut bytes) {
        Ok(Taken::Settled(n) | Taken::Ended(n)) => print(system, &bytes, n),
        Err(e) => system.fail(b"interleaver: reading", e),
    }
}
