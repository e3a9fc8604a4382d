// The commands on plan files: the judge's lines, those of two files that differ, and the file of given sets.
#![tactic(auto)]

pub mod compared; // compared.rt: where two files differ
pub mod judged; // judged.rt: each plan of a file
pub mod written; // written.rt: the file of given sets

use sets::Refusal;
use system::{STDOUT_FILENO, System};

// A byte more than a file may have, so that a longer one is seen to be.
const ROOM: usize = 65537;

// Says a refusal, as an answer.
fn refused(system: System, x: Refusal) {
    words::text::say_refusal(system, STDOUT_FILENO, x.number, x.size);
}

// Reads the file that argument i names, and answers how many bytes came. Of a file that can't be read none did, and that is not of the form.
fn read(system: System, i: usize, room: &mut [u8]) -> usize {
    files::read(system, i, room).unwrap_or(0)
}
