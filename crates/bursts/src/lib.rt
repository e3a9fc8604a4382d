// A burst in the channel of DVB or ATSC, for a person: where each of its bytes comes out of the deinterleaver, and how far apart.
#![tactic(auto)]

pub mod page; // page.rt: as a table
pub mod picture; // picture.rt: as an SVG

ghost use Rattle.std.specs.Prelude.{◌≤◌};

use system::{STDOUT_FILENO, System};
use words::text::{say, write};

// The longest burst that is shown.
pub const LONGEST: u32 = 1024;

// A burst that is shown, from byte `at` of the channel on: of at least 1 byte, at most LONGEST.
#[derive(Clone, Copy)]
struct Burst {
    kind: u32,
    at: u32,
    length: u32,
    ghost limited: { (1 ≤ length) × (length ≤ 1024) },
}

impl Burst {
    fn of(kind: u32, at: u32, length: u32) -> Self {
        Burst {
            kind,
            at,
            length: length.max(1).min(LONGEST),
        }
    }

    // Where byte i comes out.
    fn place(self, i: u32) -> u64 {
        channel::place(self.kind, self.at, i)
    }

    // The least distance between any two of its bytes, in words.
    fn tell_least(self, system: System) {
        if self.length > 1 {
            say(
                system,
                STDOUT_FILENO,
                b"least distance ",
                channel::nearest(self.kind, self.at, self.length),
            );
            return;
        }
        write(system, STDOUT_FILENO, b"least distance none");
    }
}
