// Repeated receptions of a block added up. Lent are the stored sums and the counts of receptions, N of each, by input index; a newly received block
// in output order, and a presence byte for each of its values. Zero is a value: whether there is one is said by the presence byte and by the count
// alone.
#![tactic(auto)]

ghost use Rattle.std.specs.Prelude.{◌≡◌, ◌≤◌, length};
ghost use Rattle.laws.specs.Outcome.{say, done};
ghost use Rattle.positions.specs.Heard.{reception, kept};
ghost use Rattle.families.specs.Symbols.{symbols_of};
ghost use Rattle.combine.specs.Answer.{plain_of, added_of, sums_of, counts_of, read_of, say_reading, told_of};
ghost use Rattle.combine.specs.Passed.{Lent, Added};

use positions::Running;
use sets::{Refusal, Set, Verdict};
use tables::{LARGE, MIDDLE, Moved, SMALL};

// What stands at a position: a soft value, which is the running sum and how many values it is of; or a blank, where the count is 0. (No Result of an
// Option: the buyer's paper names this form, an enum with these three cases.)
#[derive(Clone, Copy)]
pub enum Reading {
    Soft(Running),
    Blank,
    Refused(Refusal),
}

// 1 of a set of couples, whose receptions are not added up.
fn plain(set: Set) -> Verdict
    ensures { say result ≡ plain_of set }
{
    if sets::is_coupled(set) {
        return Err(sets::refusal_of(set, 1));
    }
    Ok(())
}

// Adds a judged block by a table of N addresses.
fn add_by<const N: usize>(
    set: Set,
    received: &[f32],
    present: &[u8],
    sums: &mut [f32],
    counts: &mut [u16],
) -> Moved
    requires lent { Lent set (reception received.now present.now) (kept sums.old counts.old) }
    requires room { (symbols_of set ≤ N) × (N ≤ LARGE) }
    ensures { Added set
        (reception received.now present.now) (kept sums.old counts.old)
        result sums.new counts.new }
{
    let mut table = [0u16; N];
    tables::fill(set, &mut table);
    if let Err(k) = adders::judge_by(&table, received, present, sums, counts) {
        return Err(sets::refusal_of(set, k));
    }
    adders::add_by(&table, received, present, sums, counts);
    Ok(())
}

// Adds a judged block by the smallest table that holds its symbols.
fn add_judged(
    set: Set,
    received: &[f32],
    present: &[u8],
    sums: &mut [f32],
    counts: &mut [u16],
) -> Moved
    requires { Lent set (reception received.now present.now) (kept sums.old counts.old) }
    ensures { Added set
        (reception received.now present.now) (kept sums.old counts.old)
        result sums.new counts.new }
{
    let n = tables::size_of(set);
    if n <= SMALL {
        return add_by::<SMALL>(set, received, present, sums, counts);
    }
    if n <= MIDDLE {
        return add_by::<MIDDLE>(set, received, present, sums, counts);
    }
    add_by::<LARGE>(set, received, present, sums, counts)
}

// Adds a received block to what is stored: value t at input index L(t). A blank changes nothing; the first present value is stored as it is, count 1;
// later ones are added with one rounding each, and the count rises by one. Refusals 1, also of profile 9, 2, 3, 16, 11, 10, 5, 6, 14, 13, 15; up to 6
// before anything is walked.
pub fn add(
    set: Set,
    received: &[f32],
    present: &[u8],
    sums: &mut [f32],
    counts: &mut [u16],
) -> Moved
    ensures answer { say result ≡ added_of set
        (reception received.now present.now) (kept sums.old counts.old) }
    ensures sums { sums.new ≡ sums_of set
        (reception received.now present.now) (kept sums.old counts.old) }
    ensures counts { counts.new ≡ counts_of set
        (reception received.now present.now) (kept sums.old counts.old) }
{
    plain(set)?;
    let n = set.n as usize;
    let input = adders::off(n, received.len(), present.len());
    let output = adders::off(n, sums.len(), counts.len());
    tables::judge(set, 1, input, output)?;
    add_judged(set, received, present, sums, counts)
}

// What stands at a position.
fn reading_at(held: Running) -> Reading
    ensures { say_reading result ≡ done (told_of held) }
{
    if positions::is_blank(held) {
        return Reading::Blank;
    }
    Reading::Soft(held)
}

// Reads a position, by input index. Refusals 1, also of profile 9, 2, 3, 16, 11, 10, 4, 6.
pub fn read(set: Set, sums: &[f32], counts: &[u16], position: u32) -> Reading
    ensures { say_reading result ≡ read_of set (kept sums.now counts.now) position }
{
    if let Err(x) = plain(set) {
        return Reading::Refused(x);
    }
    if let Err(k) = sets::ruling_of(set) {
        return Reading::Refused(sets::refusal_of(set, k));
    }
    if position >= set.n {
        return Reading::Refused(sets::refusal_of(set, 4));
    }
    if adders::off(set.n as usize, sums.len(), counts.len()) != set.n as usize {
        return Reading::Refused(sets::refusal_of(set, 6));
    }
    let k = position as usize;
    reading_at(Running {
        sum: sums[k],
        count: counts[k],
    })
}
