// An accepted set of the quadratic family: its K, f1 and f2, and the leaf that is asked. M is not walked.
#![tactic(auto)]

ghost use Rattle.std.specs.Prelude.{◌≡◌, ◌<◌};
ghost use Rattle.profiles.specs.declared.Family.TheVariants.{Quadratic};
ghost use Rattle.families.specs.Rules.{rule_in};
ghost use Rattle.families.specs.Taken.{Taken, WalkLeaf};
ghost use Rattle.families.specs.Families.{quadratic_of};

use laws::{Leaf, Way};
use sets::Set;

// The block: K, f1 and f2.
fn block_of(set: Set) -> quadratic::Quadratic
    requires { Taken set Quadratic }
    ensures { (result.k, result.f1, result.f2) ≡ quadratic_of set }
{
    quadratic::Quadratic {
        k: set.n as usize,
        f1: set.factors.first as usize,
        f2: set.factors.second as usize,
    }
}

pub fn walk(way: Way, set: Set, cell: usize, out: &mut [u16]) -> Leaf
    requires { Taken set Quadratic }
    ensures { WalkLeaf way set cell out.old out.new result }
{
    let q = block_of(set);
    match way {
        Way::Interleaver => quadratic_walk::walk(q, cell, out),
        Way::Deinterleaver => Err(1),
    }
}

pub fn address(way: Way, set: Set, x: usize) -> usize
    requires { Taken set Quadratic × (x < set.n) }
    ensures { result ≡ (rule_in way set).l x }
{
    let q = block_of(set);
    match way {
        Way::Interleaver => quadratic_walk::address_of(q, x),
        Way::Deinterleaver => quadratic_walk::place_of(q, x),
    }
}
