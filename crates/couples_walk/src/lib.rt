// The walk of the couples of IEEE 802.16: the walk for P from any cell, one couple either way, and the table of couples spread to that of their
// symbols. P at the cell and the four steps behind it are worked out once a call, by division; after that each step is one sum, which takes N off at
// most once. The public functions are leaf functions: the crate above them tests a set first, and shows what they require.
#![tactic(auto)]

pub mod symbols; // symbols.rt: from couples to symbols

ghost use Rattle.std.specs.Prelude.{◌≡◌, List, ℕ, ◌+◌, ◌≤◌, ◌<◌, length};
ghost use Rattle.laws.specs.Lanes.{Ran};
ghost use Rattle.laws.specs.Resting.{StepOf};
ghost use Rattle.laws.specs.Walk.{LeafOf};
ghost use Rattle.couples.specs.Formula.{couple_l, couple_m, coupled_rule};
ghost use Rattle.couples.specs.Test.{Numbered};
ghost use Rattle.couples_walk.specs.Spot.{Block, onward, SpotAt, SpotIn, spots, Walking};

use couples::{Couples, offset_of};
use laws::{Leaf, Went};
use residues::{least, plus};

// The couple of output j, by division.
fn couple_at(couples: Couples, j: u32) -> u32
    requires { Block couples j }
    ensures { result ≡ couple_l couples j }
{
    (couples.p0 * j + offset_of(couples, j % 4)) % couples.n
}

// How much more the couple of output j + 1 is, modulo N.
fn step_from(couples: Couples, j: u32) -> u32
    requires { Numbered couples × (j < 65536) }
    ensures { result ≡ onward couples j }
{
    let n = couples.n;
    let old = offset_of(couples, j % 4);
    let new = offset_of(couples, (j + 1) % 4);
    (couples.p0 + new + (n - old % n)) % n
}

// Where a walk stands: the couple, and how much more, modulo N, each of the next four is than the one before it. The fifth is as much more as the
// first, and so on.
#[derive(Clone, Copy)]
struct Spot {
    value: usize,
    first: usize,
    second: usize,
    third: usize,
    fourth: usize,
}

impl Spot {
    // At an output: by division, once a call.
    fn new(couples: Couples, cell: usize) -> Self
        requires { Block couples cell }
        ensures { SpotAt couples cell result }
    {
        let j = cell as u32;
        Spot {
            value: couple_at(couples, j) as usize,
            first: step_from(couples, j) as usize,
            second: step_from(couples, j + 1) as usize,
            third: step_from(couples, j + 2) as usize,
            fourth: step_from(couples, j + 3) as usize,
        }
    }

    // One output on: the couple by the first step, which is then the last of the four. (Where four are written in a pass, nothing is moved.)
    fn next(self, couples: Couples) -> Self
        requires { SpotIn couples self }
        ensures step_of { StepOf (spots couples) self result }
        ensures spot_in { SpotIn couples result }
    {
        let value = plus(couples.n as usize, self.value, self.first);
        Spot {
            value,
            first: self.second,
            second: self.third,
            third: self.fourth,
            fourth: self.first,
        }
    }
}

// Writes the couples of two outputs, from one on, at out[i] and out[i + 1]; gives back where it then stands.
fn write_two(couples: Couples, start: Spot, out: &mut [u16], i: usize) -> Spot
    requires { SpotIn couples start × (i + 2 ≤ length out.old) }
    ensures { (cell count : ℕ) (old : List ℕ) → i + 2 ≤ count
        → Walking couples cell count old out.old start i
        → Walking couples cell count old out.new result (i + 2) }
{
    out[i] = start.value as u16;
    let second = start.next(couples);
    out[i + 1] = second.value as u16;
    second.next(couples)
}

// Writes on, one couple at a time, up to out[count - 1]; gives back where it then stands.
fn write_rest(couples: Couples, start: Spot, out: &mut [u16], from: usize, count: usize) -> Spot
    requires { SpotIn couples start × (from ≤ count) × (count ≤ length out.old) }
    ensures { (cell : ℕ) (old : List ℕ) → Walking couples cell count old out.old start from
        → Walking couples cell count old out.new result count }
{
    let mut at = start;
    for i in from..count {
        out[i] = at.value as u16;
        at = at.next(couples);
    }
    at
}

// Writes P from a cell on, as far as there is room and cells, four couples at a time and then the rest; gives back how many.
fn write(couples: Couples, cell: usize, out: &mut [u16]) -> usize
    requires { Block couples cell }
    ensures { Ran (couple_l couples) couples.n cell out.old out.new result }
{
    let count = least(out.len(), couples.n as usize - cell);
    let mut at = Spot::new(couples, cell);
    let mut i = 0;
    'fours: for _ in 0..count / 4 {
        at = write_two(couples, at, out, i);
        i += 2;
        at = write_two(couples, at, out, i);
        i += 2;
    }
    write_rest(couples, at, out, i, count);
    count
}

// The walk for P from a cell: 9 where it is past the total.
pub fn walk(couples: Couples, cell: usize, out: &mut [u16]) -> Leaf
    requires { Numbered couples }
    ensures { LeafOf couples.n (coupled_rule couples) cell out.old out.new result }
{
    if cell > couples.n as usize {
        return Err(9);
    }
    let count = write(couples, cell, out);
    Ok(Went {
        written: count,
        cells: count,
    })
}

// P(j), for j below N.
pub fn address_of(couples: Couples, j: usize) -> usize
    requires { Numbered couples × (j < couples.n) }
    ensures { result ≡ couple_l couples j }
{
    couple_at(couples, j as u32) as usize
}

// M(a), the output whose couple is a, by walking there.
pub fn place_of(couples: Couples, a: usize) -> usize
    requires { Numbered couples }
    ensures { result ≡ couple_m couples a }
{
    let mut at = Spot::new(couples, 0);
    let n = couples.n as usize;
    for j in 0..n {
        if at.value == a {
            return j;
        }
        at = at.next(couples);
    }
    n
}
