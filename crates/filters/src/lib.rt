// Standard input to standard output: blocks of symbols, and byte streams. A turn of each loop is a function of its own, over slices that are
// lent once. The loops over the input end by a budget of as many turns as the largest u64, which no input meets; a
// block's, by its length.
#![tactic(auto)]

pub mod blocked; // blocked.rt: block after block
pub mod streamed; // streamed.rt: a byte stream, in whatever lengths reads give

ghost use Rattle.io.specs.Counts.{IsPrefixLen};

use system::{STDERR_FILENO, STDOUT_FILENO, System};

fn refused(system: System, number: u32, size: u32) {
    words::text::say_refusal(system, STDERR_FILENO, number, size);
}

// Writes a part of the output. Answers whether it could.
fn write_out(system: System, out: &[u8]) -> bool {
    words::text::write(system, STDOUT_FILENO, out)
}

// Reads once, in whatever length the read gives: 0 at the end of the input, and where the read fails, which is said.
fn read_some(system: System, room: &mut [u8]) -> usize
    ensures { IsPrefixLen result room.new }
{
    match system.read(room) {
        Ok(n) => n,
        Err(e) => {
            system.fail(b"interleaver: reading", e);
            0
        }
    }
}
