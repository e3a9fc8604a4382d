// Whole blocks, interleaved and deinterleaved by a table that the walk for L fills: of bytes, of f32 soft values, of entries of any kind. An entry is moved
// and never looked at: zero, minus zero and not-a-number are values like any other.
#![tactic(auto)]

ghost use Rattle.std.specs.Prelude.{◌≡◌, ◌≤◌, length};
ghost use Rattle.laws.specs.declared.Way.TheVariants.{Interleaver, Deinterleaver};
ghost use Rattle.laws.specs.Outcome.{say};
ghost use Rattle.families.specs.Symbols.{symbols_of};
ghost use Rattle.tables.specs.Answer.{moved_of};
ghost use Rattle.tables.specs.Passed.{Judged};
ghost use Rattle.blocks.specs.Answer.{moved};

use laws::Way;
use sets::Set;
use tables::{LARGE, MIDDLE, Moved, SMALL};

// Moves a judged block by a table of N addresses.
fn move_by<T: Copy, const N: usize>(way: Way, set: Set, src: &[T], dst: &mut [T])
    requires judged { Judged set (symbols_of set) (length src.now) (length dst.old) }
    requires room { (symbols_of set ≤ N) × (N ≤ LARGE) }
    ensures { (z : T) → dst.new ≡ moved way set z src.now dst.old }
{
    let mut table = [0u16; N];
    tables::fill(set, &mut table);
    match way {
        Way::Interleaver => movers::gather_by(&table, src, dst),
        Way::Deinterleaver => movers::scatter_by(&table, src, dst),
    }
}

// Moves a judged block by the smallest table that holds its symbols. (`symbols` and `combine` choose by the same three lines: a helper that all share would
// take the loops as a closure, and no contract tells what an `FnOnce` has written into what it borrowed.)
fn move_judged<T: Copy>(way: Way, set: Set, src: &[T], dst: &mut [T])
    requires { Judged set (symbols_of set) (length src.now) (length dst.old) }
    ensures { (z : T) → dst.new ≡ moved way set z src.now dst.old }
{
    let n = tables::size_of(set);
    if n <= SMALL {
        return move_by::<T, SMALL>(way, set, src, dst);
    }
    if n <= MIDDLE {
        return move_by::<T, MIDDLE>(way, set, src, dst);
    }
    move_by::<T, LARGE>(way, set, src, dst)
}

// Moves a block, either way: N entries, or of couples two for each. Refusals 1, 2, 3, 16, 11, 10, 5, 6, before anything is walked.
pub fn move_block<T: Copy>(way: Way, set: Set, src: &[T], dst: &mut [T]) -> Moved
    ensures answer { say result ≡ moved_of set (symbols_of set) (length src.now) (length dst.old) }
    ensures output { (z : T) → dst.new ≡ moved way set z src.now dst.old }
{
    tables::judge(set, 1, src.len(), dst.len())?;
    move_judged(way, set, src, dst);
    Ok(())
}

// Interleaves a block: dst[t] = src[L(t)], of couples by their symbols.
pub fn interleave<T: Copy>(set: Set, src: &[T], dst: &mut [T]) -> Moved
    ensures answer { say result ≡ moved_of set (symbols_of set) (length src.now) (length dst.old) }
    ensures output { (z : T) → dst.new ≡ moved Interleaver set z src.now dst.old }
{
    move_block(Way::Interleaver, set, src, dst)
}

// Deinterleaves a block: dst[L(t)] = src[t], of couples by their symbols.
pub fn deinterleave<T: Copy>(set: Set, src: &[T], dst: &mut [T]) -> Moved
    ensures answer { say result ≡ moved_of set (symbols_of set) (length src.now) (length dst.old) }
    ensures output { (z : T) → dst.new ≡ moved Deinterleaver set z src.now dst.old }
{
    move_block(Way::Deinterleaver, set, src, dst)
}
