// The carrier interleaver over d, N and s, and its third step: the formulas, in specs, and what the walks for L and for M share. An inner crate: who
// calls `turn_of` has tested the stream.
#![tactic(auto)]

ghost use Rattle.std.specs.Prelude.{◌≡◌, ◌*◌, ◌≤◌, ◌<◌};
ghost use Rattle.carrier.specs.Block.{Whole, whole_prop};
ghost use Rattle.carrier.specs.Third.{turn};

// A block of the first two steps: its d, N and s. N is a positive multiple of d, N/d is a multiple of s, and N is below 2 to the 16th.
#[derive(Clone, Copy)]
pub struct Carrier {
    pub d: usize,
    pub n: usize,
    pub s: usize,
    ghost whole: { Whole d n s } by { whole_prop },
}

// How far a spatial stream is turned, for streams 1 to 4: by division, once a call.
pub fn turn_of(bits: usize, r: usize, stream: usize) -> usize
    requires { (1 ≤ stream) × ((stream ≤ 4) × (3 * (r * bits) < 65536)) }
    ensures { result ≡ turn bits r stream }
{
    let i = stream - 1;
    (2 * i % 3 + 3 * (i / 3)) * (r * bits)
}
