// An accepted set of couples: its N and P0 to P3, and the leaf that is asked. M is not walked.
#![tactic(auto)]

ghost use Rattle.std.specs.Prelude.{◌≡◌, ◌<◌};
ghost use Rattle.profiles.specs.declared.Family.TheVariants.{Coupled};
ghost use Rattle.families.specs.Rules.{rule_in};
ghost use Rattle.families.specs.Taken.{Taken, WalkLeaf};

use laws::{Leaf, Way};
use sets::Set;

pub fn walk(way: Way, set: Set, cell: usize, out: &mut [u16]) -> Leaf
    requires { Taken set Coupled }
    ensures { WalkLeaf way set cell out.old out.new result }
{
    match way {
        Way::Interleaver => couples_walk::walk(sets::couples_of(set), cell, out),
        Way::Deinterleaver => Err(1),
    }
}

pub fn address(way: Way, set: Set, x: usize) -> usize
    requires { Taken set Coupled × (x < set.n) }
    ensures { result ≡ (rule_in way set).l x }
{
    let couples = sets::couples_of(set);
    match way {
        Way::Interleaver => couples_walk::address_of(couples, x),
        Way::Deinterleaver => couples_walk::place_of(couples, x),
    }
}
