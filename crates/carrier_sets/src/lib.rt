// An accepted set of the carrier family: its d, N and s, and the leaf that is asked.
#![tactic(auto)]

ghost use Rattle.std.specs.Prelude.{◌≡◌, ◌<◌};
ghost use Rattle.profiles.specs.declared.Family.TheVariants.{Carrier};
ghost use Rattle.families.specs.Rules.{rule_in};
ghost use Rattle.families.specs.Taken.{Taken, WalkLeaf};
ghost use Rattle.families.specs.Families.{carrier_of};

use laws::{Leaf, Way};
use sets::Set;

// The block: d, N and s.
fn block_of(set: Set) -> carrier::Carrier
    requires { Taken set Carrier }
    ensures { (result.d, result.n, result.s) ≡ carrier_of set }
{
    carrier::Carrier {
        d: sets::numbers_of(set).d as usize,
        n: set.n as usize,
        s: sets::group_of(set) as usize,
    }
}

pub fn walk(way: Way, set: Set, cell: usize, out: &mut [u16]) -> Leaf
    requires { Taken set Carrier }
    ensures { WalkLeaf way set cell out.old out.new result }
{
    let b = block_of(set);
    match way {
        Way::Interleaver => carrier_rows::walk(b, cell, out),
        Way::Deinterleaver => carrier_columns::walk(b, cell, out),
    }
}

pub fn address(way: Way, set: Set, x: usize) -> usize
    requires { Taken set Carrier × (x < set.n) }
    ensures { result ≡ (rule_in way set).l x }
{
    let b = block_of(set);
    match way {
        Way::Interleaver => carrier_rows::address(b, x),
        Way::Deinterleaver => carrier_columns::address(b, x),
    }
}
