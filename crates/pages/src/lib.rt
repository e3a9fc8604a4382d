// The answers of the query commands as text: address lists, one address, the table of profiles, a picture.
#![tactic(auto)]

pub mod lists; // lists.rt: the test of a set, addresses
pub mod picture; // picture.rt: a permutation as an SVG
pub mod admitted; // admitted.rt: what each profile admits

use system::{STDOUT_FILENO, System};

// No list is longer.
const LONGEST: usize = 6144;

fn say(system: System, words: &[u8]) {
    words::text::write(system, STDOUT_FILENO, words);
}

// Words and a number, in the middle of a line.
fn say_number(system: System, words: &[u8], n: u64) {
    words::text::say(system, STDOUT_FILENO, words, n);
}
