// The public calls on a parameter set: the walk for L, the walk for M, one address either way. Every input is tested inside. Here a set and a
// position are tested and the call given to the set's family, in crate leaves; a cell is tested there, since the total is the family's. A way stands
// for a list: L for the interleaver, which takes output t from input L(t), and M for the deinterleaver, which takes output k from input M(k).
#![tactic(auto)]

ghost use Rattle.std.specs.Prelude.{cond, ◌≡◌, length};
ghost use Rattle.laws.specs.declared.Way.TheVariants.{Interleaver, Deinterleaver};
ghost use Rattle.laws.specs.Outcome.{say};
ghost use Rattle.laws.specs.Leaves.{Fits, carry};
ghost use Rattle.sets.specs.Set.{family_of};
ghost use Rattle.sets.specs.Verdict.{refusal};
ghost use Rattle.families.specs.Rules.{barred};
ghost use Rattle.walks.specs.Answer.{walked_of, slice_of, found_of};
ghost use Rattle.walks.specs.Passed.{onward};

use laws::{Leaf, Way};
use sets::{Refusal, Set};

// A walk's record: a parameter set, and the next cell.
#[derive(Clone, Copy)]
pub struct Walk {
    pub set: Set,
    pub cell: u32,
}

// The values of a walk: addresses written, the record that goes on, cells examined.
#[derive(Clone, Copy)]
pub struct Values {
    pub written: u32,
    pub next: Walk,
    pub cells: u32,
}

// The answer of a walk.
pub type Walked = Result<Values, Refusal>;

// The answer for one address.
pub type Found = Result<u32, Refusal>;

// The refusal of a walk of a set whose test stops with a number: 1 where the walk is not had, before that.
fn refused_walk(way: Way, set: Set, number: u32) -> Refusal
    ensures { result ≡ cond (barred way (family_of set)) (refusal set 1) (refusal set number) }
{
    if leaves::is_barred(way, set) {
        return sets::refusal_of(set, 1);
    }
    sets::refusal_of(set, number)
}

// A walk's answer from its leaf's: the refusal of the number, or the record that goes on.
fn finish_walk(w: Walk, leaf: Leaf) -> Walked
    requires { Fits w.cell leaf }
    ensures { say result ≡ carry (refusal w.set) (onward w) (say leaf) }
{
    match leaf {
        Err(k) => Err(sets::refusal_of(w.set, k)),
        Ok(went) => {
            let cell = w.cell;
            let seen = went.cells as u32;
            let mut next = w;
            next.cell = cell + seen;
            Ok(Values {
                written: went.written as u32,
                next,
                cells: seen,
            })
        }
    }
}

// The walk of a way: writes the addresses of L or M from a cell on, cell by cell, without padding; stops right after the slice is full, or at
// the cell total. Refusals 1, for M also of profiles 5, 8 and 9, 2, 3, 16, 11, 10, 9.
pub fn walk_by(way: Way, w: Walk, out: &mut [u16]) -> Walked
    ensures answer { say result ≡ walked_of way w (length out.old) }
    ensures slice { out.new ≡ slice_of way w out.old }
{
    if let Err(k) = sets::ruling_of(w.set) {
        return Err(refused_walk(way, w.set, k));
    }
    finish_walk(w, leaves::walk(way, w.set, w.cell as usize, out))
}

// The walk for L.
pub fn walk_l(w: Walk, out: &mut [u16]) -> Walked
    ensures answer { say result ≡ walked_of Interleaver w (length out.old) }
    ensures slice { out.new ≡ slice_of Interleaver w out.old }
{
    walk_by(Way::Interleaver, w, out)
}

// The walk for M, of every profile but 5, 8 and 9: a cell is an input position.
pub fn walk_m(w: Walk, out: &mut [u16]) -> Walked
    ensures answer { say result ≡ walked_of Deinterleaver w (length out.old) }
    ensures slice { out.new ≡ slice_of Deinterleaver w out.old }
{
    walk_by(Way::Deinterleaver, w, out)
}

// One address, of L or M. Refusals 1, 2, 3, 16, 11, 10, 4.
pub fn address_by(way: Way, set: Set, x: u32) -> Found
    ensures { say result ≡ found_of way set x }
{
    if let Err(k) = sets::ruling_of(set) {
        return Err(sets::refusal_of(set, k));
    }
    if x >= set.n {
        return Err(sets::refusal_of(set, 4));
    }
    Ok(leaves::address(way, set, x as usize) as u32)
}

// L(t): the input index that output t holds.
pub fn address_l(set: Set, t: u32) -> Found
    ensures { say result ≡ found_of Interleaver set t }
{
    address_by(Way::Interleaver, set, t)
}

// M(k): the output index that input k goes to.
pub fn address_m(set: Set, k: u32) -> Found
    ensures { say result ≡ found_of Deinterleaver set k }
{
    address_by(Way::Deinterleaver, set, k)
}
