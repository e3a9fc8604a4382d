// Bursts in the channel of a deinterleaver, found again in what comes out: their bytes are 1, 2, .. and every other byte is 0.
ghost use Rattle.std.specs.Prelude.{◌≤◌};

use super::{plus, standards};

// How many bytes of bursts were found, how many of them not at their place, and the least distance of two of one burst.
#[derive(Clone, Copy)]
pub struct Seen {
    pub found: u64,
    pub wrong: u64,
    pub nearest: u64,
}

// Where channel byte a comes out, by its queue: it waits for as many more bytes of its branch as the queue is long, and of as many bytes as there are
// branches one is.
fn place(kind: u32, a: usize) -> u64 {
    let branches = standards::branches(kind);
    let queue = standards::queue(kind, branches - 1 - standards::rest(a, branches));
    plus(a as u64, (queue * branches) as u64)
}

// Byte t of a channel with a burst of n bytes from byte `at` on.
fn sent(at: usize, n: usize, t: usize) -> u8 {
    if t < at {
        return 0;
    }
    if t - at < n {
        return ((t - at) % 255) as u8 + 1;
    }
    0
}

// The channel.
pub fn channel(at: usize, n: usize, input: &mut [u8]) {
    for (t, b) in input.iter_mut().enumerate() {
        *b = sent(at, n, t);
    }
}

// How far place t is behind the last, of which there may be none.
fn behind(t: usize, last: Option<usize>) -> u64 {
    last.map_or(u64::MAX, |l| t.saturating_sub(l) as u64)
}

impl Seen {
    pub fn none() -> Self {
        Seen {
            found: 0,
            wrong: 0,
            nearest: u64::MAX,
        }
    }

    // Byte i of the burst from byte `at` on, at place t, and the one before it in the output at the last.
    fn with(self, kind: u32, at: usize, i: u8, t: usize, last: Option<usize>) -> Self
        requires { at ≤ 104 }
    {
        let a = at + i as usize;
        Seen {
            found: plus(self.found, 1),
            wrong: plus(self.wrong, u64::from(place(kind, a) != t as u64)),
            nearest: self.nearest.min(behind(t, last)),
        }
    }

    // And what came out of the deinterleaver for a channel with a burst from byte `at` on.
    pub fn look(self, kind: u32, at: usize, out: &[u8]) -> Self
        requires { at ≤ 104 }
    {
        let mut seen = self;
        let mut last = None;
        for (t, v) in out.iter().enumerate() {
            if *v > 0 {
                seen = seen.with(kind, at, *v - 1, t, last);
                last = Some(t);
            }
        }
        seen
    }
}
