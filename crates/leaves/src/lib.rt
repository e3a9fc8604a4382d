// Which leaf is asked for the walk and for one address of an accepted set: that of its family. A crate for each family has its leaves; families has
// their rules. Inner functions: whoever calls them has tested the set, and the position.
// (No trait over the families' crates: it would say the two clauses that they share, by WalkLeaf and rule_in, once more, with a type and an impl for each,
// and which is asked would still be picked here. And no match on the family: one question after the other is some ten instructions less.)
#![tactic(auto)]

ghost use Rattle.std.specs.Prelude.{◌≡◌, ◌<◌};
ghost use Rattle.sets.specs.Set.{family_of};
ghost use Rattle.families.specs.Rules.{rule_in, barred};
ghost use Rattle.sets.specs.Admits.{Accepted};
ghost use Rattle.families.specs.Taken.{WalkLeaf};

use laws::{Leaf, Way};
use sets::Set;

// Whether a walk is not had: that for M of the turbo interleaver, of the quadratic one and of couples.
pub fn is_barred(way: Way, set: Set) -> bool
    ensures { result ≡ barred way (family_of set) }
{
    match way {
        Way::Interleaver => false,
        Way::Deinterleaver => {
            sets::is_turbo(set) | (sets::is_quadratic(set) | sets::is_coupled(set))
        }
    }
}

// The walk of an accepted set, by family: 1 where it is not had, then 9 where the cell is past the total.
pub fn walk(way: Way, set: Set, cell: usize, out: &mut [u16]) -> Leaf
    requires { Accepted set }
    ensures { WalkLeaf way set cell out.old out.new result }
{
    if sets::is_spatial(set) {
        return spatial_sets::walk(way, set, cell, out);
    }
    if sets::is_turbo(set) {
        return turbo_sets::walk(way, set, cell, out);
    }
    if sets::is_quadratic(set) {
        return quadratic_sets::walk(way, set, cell, out);
    }
    if sets::is_coupled(set) {
        return couples_sets::walk(way, set, cell, out);
    }
    carrier_sets::walk(way, set, cell, out)
}

// One address of an accepted set, at a position below N, by family.
pub fn address(way: Way, set: Set, x: usize) -> usize
    requires { Accepted set × (x < set.n) }
    ensures { result ≡ (rule_in way set).l x }
{
    if sets::is_spatial(set) {
        return spatial_sets::address(way, set, x);
    }
    if sets::is_turbo(set) {
        return turbo_sets::address(way, set, x);
    }
    if sets::is_quadratic(set) {
        return quadratic_sets::address(way, set, x);
    }
    if sets::is_coupled(set) {
        return couples_sets::address(way, set, x);
    }
    carrier_sets::address(way, set, x)
}
