// What every call that moves a block does first: the set and the lengths are judged, and then the table of the block's symbols is made in a lent slice: the
// walk for L, and of couples their two symbols each. How many symbols a block has is asked here, and how many bytes a symbol has is the caller's to say.
#![tactic(auto)]

ghost use Rattle.std.specs.Prelude.{◌≡◌, ◌*◌, ◌≤◌, length};
ghost use Rattle.laws.specs.Outcome.{say};
ghost use Rattle.sets.specs.Admits.{Accepted};
ghost use Rattle.families.specs.Symbols.{symbols_of};
ghost use Rattle.tables.specs.Answer.{moved_of};
ghost use Rattle.tables.specs.Passed.{Tabled, SizeOf};

use laws::Way;
use sets::{Refusal, Set};

// A table is cleared at each call, so it is the smallest of three that holds a block's symbols. The largest holds any listed block's.
pub const SMALL: usize = 64;

pub const MIDDLE: usize = 512;

pub const LARGE: usize = 6144;

// The answer of a call that moves a block.
pub type Moved = Result<(), Refusal>;

// How many symbols a block has: two for each couple, else N.
pub fn symbols_of(set: Set) -> usize
    ensures { result ≡ symbols_of set }
{
    if sets::is_coupled(set) {
        return 2 * set.n as usize;
    }
    set.n as usize
}

// The same of an accepted set, which is how many addresses its table holds. The largest table has room for them.
pub fn size_of(set: Set) -> usize
    requires { Accepted set }
    ensures { SizeOf set result }
{
    symbols_of(set)
}

// How long a block of an accepted set is, whose symbols are of `width` bytes, or entries, each: it fits.
fn length_of(set: Set, width: u32) -> usize
    requires { Accepted set }
    ensures { result ≡ symbols_of set * width }
{
    size_of(set) * width as usize
}

// Judges a block of symbols of `width` bytes, or entries, each, before anything is walked: the set, 1, 2, 3, 16, 11, 10; then the lengths, 5 and 6.
pub fn judge(set: Set, width: u32, input: usize, output: usize) -> Moved
    ensures { say result ≡ moved_of set (symbols_of set * width) input output }
{
    if let Err(k) = sets::ruling_of(set) {
        return Err(sets::refusal_of(set, k));
    }
    let total = length_of(set, width);
    if input != total {
        return Err(sets::refusal_of(set, 5));
    }
    if output != total {
        return Err(sets::refusal_of(set, 6));
    }
    Ok(())
}

// Fills a table with the symbols of a block of an accepted set: entry t is the input symbol that output symbol t holds.
pub fn fill(set: Set, table: &mut [u16])
    requires { Accepted set × (symbols_of set ≤ length table.old) }
    ensures { Tabled set table.new }
{
    // (from cell 0 the walk for L is never refused)
    let _ = leaves::walk(Way::Interleaver, set, 0, table);
    if sets::is_coupled(set) {
        couples_walk::symbols::spread(set.n as usize, table);
    }
}
