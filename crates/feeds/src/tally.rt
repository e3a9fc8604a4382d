// How often a machine was called, refused with 7, 9, 6 or anything else, and how many bytes it took.
use super::plus;
use streams::Said;

#[derive(Clone, Copy, Default)]
pub struct Tally {
    pub calls: u64,
    pub seven: u64,
    pub nine: u64,
    pub six: u64,
    pub other: u64,
    pub bytes: u64,
}

impl Tally {
    // A call more, of so many bytes, which it took where it was done.
    pub fn add(self, said: Said, bytes: u64) -> Self {
        let mut more = self;
        more.calls = plus(more.calls, 1);
        match said {
            Ok(()) => more.bytes = plus(more.bytes, bytes),
            Err(6) => more.six = plus(more.six, 1),
            Err(7) => more.seven = plus(more.seven, 1),
            Err(9) => more.nine = plus(more.nine, 1),
            Err(_) => more.other = plus(more.other, 1),
        }
        more
    }
}
