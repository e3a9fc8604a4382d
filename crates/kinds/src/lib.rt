// The record of a byte machine, and the two kinds of machine by their numbers: 1 is DVB, 2 is ATSC. Nothing is lent here, and nothing refused.
#![tactic(auto)]

pub mod sizes; // sizes.rt: the numbers of a kind

ghost use Rattle.std.specs.Prelude.{◌≡◌, ◌+◌, ◌-◌, ◌*◌, ◌%◌, ◌≤◌, ◌<◌, length, get_or};
ghost use Rattle.delay.specs.Lane.{Leads};
ghost use Rattle.kinds.specs.Kinds.{below_from, sizes_of, machine_of, stand_of, in_range, start_record};

use laws::Way;
use sizes::Sizes;

// The record: the kind, the branch of the next byte, and the place of each ring, in rising ring size. Those of rings that the kind lacks are 0.
#[derive(Clone, Copy)]
pub struct Stream {
    pub kind: u32,
    pub branch: u32,
    pub places: [u32; 51],
}

impl Stream {
    pub const DVB: u32 = 1;

    pub const DVB_BRANCHES: usize = 12;

    pub const DVB_STEP: usize = 17;

    pub const DVB_STORE: usize = 1122;

    pub const ATSC: u32 = 2;

    pub const ATSC_BRANCHES: usize = 52;

    pub const ATSC_STEP: usize = 4;

    pub const ATSC_STORE: usize = 5304;

    pub const RINGS: usize = 51;

    // The record of a machine that is just started.
    pub fn new(kind: u32) -> Self
        ensures { result ≡ start_record kind }
    {
        Stream {
            kind,
            branch: 0,
            places: [0u32; Self::RINGS],
        }
    }

    // Whether the branch and each place lie in their ranges: the place of ring x below STEP * x, and below 1 where the kind lacks the ring.
    pub fn in_range(self) -> bool
        ensures { result ≡ in_range self }
    {
        let z = Sizes::of(self.kind);
        let step = z.step as u32;
        let rings = z.branches - 1;
        let places = self.places;
        let own = below(&places, 0, rings, step, step);
        let rest = below(&places, rings, Self::RINGS, 1, 0);
        if self.branch as usize >= z.branches {
            return false;
        }
        own && rest
    }

    // How many bytes come before the first of ring x.
    pub fn lead(self, way: Way, x: usize) -> usize
        requires { (x < (sizes_of self.kind).branches) × (self.branch < (sizes_of self.kind).branches) }
        ensures { Leads (machine_of way self.kind) (stand_of self) x result }
    {
        let j = Sizes::ring(self.kind, way, x);
        let m = self.branch as usize;
        if j < m {
            j + Sizes::of(self.kind).branches - m
        } else {
            j - m
        }
    }

    // The slot of ring x's next byte, in the ring, by a record's places. (These are lent: a record by value would be copied for each ring.)
    pub fn slot(places: &[u32; 51], x: usize) -> u32
        requires { (0 < x) × (x ≤ 51) }
        ensures { result ≡ get_or places.now (x - 1) 0 }
    {
        places[x - 1]
    }

    // The branch when whole turns and rest bytes more have passed.
    pub fn branch_after(self, rest: usize) -> u32
        requires { (rest < (sizes_of self.kind).branches) × (self.branch < (sizes_of self.kind).branches) }
        ensures { result ≡ (self.branch + rest) % (sizes_of self.kind).branches }
    {
        let b = Sizes::of(self.kind).branches;
        residues::plus(b, self.branch as usize, rest) as u32
    }
}

// Whether each place from `from` to `to` - 1 is below its limit: the first below `limit`, and each after it below one that is `step` more. All are
// looked at, whatever is found.
fn below(places: &[u32], from: usize, to: usize, limit: u32, step: u32) -> bool
    requires { (from ≤ to) × (to ≤ length places.now) × (limit + step * (to - from) < 65536) }
    ensures { result ≡ below_from places.now from limit step (to - from) }
{
    let mut ok = true;
    let mut most = limit;
    for i in from..to {
        if places[i] >= most {
            ok = false;
        }
        most += step;
    }
    ok
}
