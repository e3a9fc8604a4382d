// The block of a spatial stream.

ghost use Rattle.std.specs.Prelude.{◌*◌, ◌≤◌, ◌<◌};

use carrier::Carrier;

// A block of a spatial stream: that of the first two steps, and bits, r and the stream of the third. There are streams 1 to 4, and the farthest that one
// is turned, 3·r·bits, is below N.
#[derive(Clone, Copy)]
pub struct Stream {
    pub steps: Carrier,
    pub bits: usize,
    pub r: usize,
    pub stream: usize,
    ghost turned: { (1 ≤ stream) × (stream ≤ 4) × (3 * (r * bits) < steps.n) },
}
