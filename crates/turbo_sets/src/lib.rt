// An accepted set of the turbo family: its K, and the leaf that is asked. M is not walked.
#![tactic(auto)]

ghost use Rattle.std.specs.Prelude.{◌≡◌, ◌<◌};
ghost use Rattle.profiles.specs.declared.Family.TheVariants.{Turbo};
ghost use Rattle.families.specs.Rules.{rule_in};
ghost use Rattle.families.specs.Taken.{Taken, WalkLeaf};

use laws::{Leaf, Way};
use sets::Set;

pub fn walk(way: Way, set: Set, cell: usize, out: &mut [u16]) -> Leaf
    requires { Taken set Turbo }
    ensures { WalkLeaf way set cell out.old out.new result }
{
    match way {
        Way::Interleaver => wcdma_walk::walk(set.n as usize, cell, out),
        Way::Deinterleaver => Err(1),
    }
}

pub fn address(way: Way, set: Set, x: usize) -> usize
    requires { Taken set Turbo × (x < set.n) }
    ensures { result ≡ (rule_in way set).l x }
{
    match way {
        Way::Interleaver => wcdma_walk::address_of(set.n as usize, x),
        Way::Deinterleaver => wcdma_walk::place_of(set.n as usize, x),
    }
}
