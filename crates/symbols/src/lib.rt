// Whole blocks of symbols, each of `width` bytes, interleaved and deinterleaved by a table that the walk for L fills. No byte is looked at.
#![tactic(auto)]

ghost use Rattle.std.specs.Prelude.{◌≡◌, ◌*◌, ◌≤◌, length};
ghost use Rattle.laws.specs.declared.Way.TheVariants.{Interleaver, Deinterleaver};
ghost use Rattle.laws.specs.Outcome.{say};
ghost use Rattle.families.specs.Symbols.{symbols_of};
ghost use Rattle.tables.specs.Answer.{moved_of};
ghost use Rattle.tables.specs.Passed.{Judged};
ghost use Rattle.symbols.specs.Answer.{moved_symbols};

use laws::Way;
use sets::Set;
use tables::{LARGE, MIDDLE, Moved, SMALL};

// Moves a judged block by a table of N addresses.
fn move_by<const N: usize>(way: Way, set: Set, width: u32, src: &[u8], dst: &mut [u8])
    requires judged { Judged set (symbols_of set * width) (length src.now) (length dst.old) }
    requires room { (symbols_of set ≤ N) × (N ≤ LARGE) }
    ensures { dst.new ≡ moved_symbols way set width src.now dst.old }
{
    let n = tables::size_of(set);
    let mut table = [0u16; N];
    tables::fill(set, &mut table);
    match way {
        Way::Interleaver => symbol_movers::gather_by(&table, n, width as usize, src, dst),
        Way::Deinterleaver => symbol_movers::scatter_by(&table, n, width as usize, src, dst),
    }
}

// Moves a judged block by the smallest table that holds its symbols.
fn move_judged(way: Way, set: Set, width: u32, src: &[u8], dst: &mut [u8])
    requires { Judged set (symbols_of set * width) (length src.now) (length dst.old) }
    ensures { dst.new ≡ moved_symbols way set width src.now dst.old }
{
    let n = tables::size_of(set);
    if n <= SMALL {
        return move_by::<SMALL>(way, set, width, src, dst);
    }
    if n <= MIDDLE {
        return move_by::<MIDDLE>(way, set, width, src, dst);
    }
    move_by::<LARGE>(way, set, width, src, dst)
}

// Moves a block of symbols of `width` bytes, either way: N of them, or of couples two for each. Refusals 1, 2, 3, 16, 11, 10, 5, 6, before anything
// is walked.
pub fn move_symbols(way: Way, set: Set, width: u32, src: &[u8], dst: &mut [u8]) -> Moved
    ensures answer { say result ≡ moved_of set (symbols_of set * width) (length src.now) (length dst.old) }
    ensures output { dst.new ≡ moved_symbols way set width src.now dst.old }
{
    tables::judge(set, width, src.len(), dst.len())?;
    move_judged(way, set, width, src, dst);
    Ok(())
}

// Interleaves a block of symbols of `width` bytes: symbol t of dst is symbol L(t) of src, of couples by their symbols.
pub fn interleave(set: Set, width: u32, src: &[u8], dst: &mut [u8]) -> Moved
    ensures answer { say result ≡ moved_of set (symbols_of set * width) (length src.now) (length dst.old) }
    ensures output { dst.new ≡ moved_symbols Interleaver set width src.now dst.old }
{
    move_symbols(Way::Interleaver, set, width, src, dst)
}

// Deinterleaves a block of symbols of `width` bytes: symbol L(t) of dst is symbol t of src, of couples by their symbols.
pub fn deinterleave(set: Set, width: u32, src: &[u8], dst: &mut [u8]) -> Moved
    ensures answer { say result ≡ moved_of set (symbols_of set * width) (length src.now) (length dst.old) }
    ensures output { dst.new ≡ moved_symbols Deinterleaver set width src.now dst.old }
{
    move_symbols(Way::Deinterleaver, set, width, src, dst)
}
