// An accepted set of the spatial family: its block, with the stream, and the leaf that is asked.
#![tactic(auto)]

ghost use Rattle.std.specs.Prelude.{◌≡◌, ◌<◌};
ghost use Rattle.profiles.specs.declared.Family.TheVariants.{Spatial};
ghost use Rattle.families.specs.Rules.{rule_in};
ghost use Rattle.families.specs.Taken.{Taken, WalkLeaf};
ghost use Rattle.families.specs.Families.{stream_of};

use carrier::Carrier;
use carrier_turned::Stream;
use laws::{Leaf, Way};
use sets::Set;

// The block: d, N and s of the first two steps, and bits, r and the stream of the third.
fn stream_of(set: Set) -> Stream
    requires { Taken set Spatial }
    ensures { ((result.steps.d, result.steps.n, result.steps.s), (result.bits, result.r, result.stream)) ≡ stream_of set }
{
    let numbers = sets::numbers_of(set);
    Stream {
        steps: Carrier {
            d: numbers.d as usize,
            n: set.n as usize,
            s: sets::group_of(set) as usize,
        },
        bits: set.bits as usize,
        r: numbers.r as usize,
        stream: set.stream as usize,
    }
}

pub fn walk(way: Way, set: Set, cell: usize, out: &mut [u16]) -> Leaf
    requires { Taken set Spatial }
    ensures { WalkLeaf way set cell out.old out.new result }
{
    let b = stream_of(set);
    match way {
        Way::Interleaver => carrier_turned::walk_l(b, cell, out),
        Way::Deinterleaver => carrier_turned::walk_m(b, cell, out),
    }
}

pub fn address(way: Way, set: Set, x: usize) -> usize
    requires { Taken set Spatial × (x < set.n) }
    ensures { result ≡ (rule_in way set).l x }
{
    let b = stream_of(set);
    match way {
        Way::Interleaver => carrier_turned::one_l(b, x),
        Way::Deinterleaver => carrier_turned::one_m(b, x),
    }
}
