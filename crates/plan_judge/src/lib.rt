// A list of a plan file beside L of an accepted set: how many positions are wrong, and the first of them. L is walked in pieces, as long as the lent slice
// is. Inner functions: whoever calls them has tested the file and the set.
#![tactic(auto)]

ghost use Rattle.std.specs.Prelude.{◌≡◌, ◌+◌, ◌<◌, ◌≤◌, length};
ghost use Rattle.laws.specs.Kept.{passing};
ghost use Rattle.laws.specs.Run.{run};
ghost use Rattle.sets.specs.Admits.{Accepted};
ghost use Rattle.pieces.specs.Pieces.{list_of};
ghost use Rattle.plan_form.specs.Lists.{Inside, list_at, wrongs};
ghost use Rattle.plan_judge.specs.Tally.{tallied, tally_of, among, tally_next, beside, Tallying};

use plan_form::Listing;
use sets::Set;

// How many positions were wrong so far, and the first of them; 0 where there is none.
#[derive(Clone, Copy)]
pub struct Tally {
    pub first: u32,
    pub count: u32,
}

// Counts positions in a row.
fn more_wrong(tally: Tally, from: usize, more: usize) -> Tally
    requires { (tally.count + more < 4294967296) × (from < 4294967296) }
    ensures { result ≡ tallied tally (run (λ p. p) from more) }
{
    if more == 0 {
        return tally;
    }
    let first = if tally.count == 0 {
        from as u32
    } else {
        tally.first
    };
    let count = tally.count + more as u32;
    Tally { first, count }
}

// Whether a list of a file has this address at a position.
fn is_at(file: &[u8], list: Listing, p: usize, address: u16) -> bool
    requires { Inside file.now list }
    ensures { result ≡ among (list_at file.now list) p address }
{
    if p >= list.count {
        return false;
    }
    big_end::pair_at(file, list.offset + 2 * p) == address
}

// Tallies a position, at which L has this address.
fn tally_at(file: &[u8], list: Listing, p: usize, address: u16, tally: Tally) -> Tally
    requires { Inside file.now list × (tally.count ≤ p) × (p < 4294967295) }
    ensures { result ≡ tally_next (list_at file.now list) p address tally }
{
    if is_at(file, list, p, address) {
        return tally;
    }
    more_wrong(tally, p, 1)
}

// Tallies a piece of L, whose addresses stand at position `at` and on.
fn tally_piece(file: &[u8], list: Listing, at: usize, piece: &[u16], tally: Tally) -> Tally
    requires { Inside file.now list × Tallying at piece.now tally }
    ensures { result ≡ tallied tally (passing (beside (list_at file.now list) at piece.now) at (length piece.now)) }
{
    let mut t = tally;
    for (j, address) in piece.iter().enumerate() {
        t = tally_at(file, list, at + j, *address, t);
    }
    t
}

// The tally of a list and L: piece by piece, and at the end of L what the list has beyond it.
pub fn compare(set: Set, file: &[u8], list: Listing, piece: &mut [u16]) -> Tally
    requires { Accepted set × Inside file.now list × (0 < length piece.old) }
    ensures { result ≡ tally_of (wrongs (list_at file.now list) (list_of set)) }
{
    let n = set.n as usize;
    let count = list.count;
    let mut w = pieces::begin(set);
    let mut tally = Tally { first: 0, count: 0 };
    // (A `while`: how far a turn goes is what the walk has written.)
    while w.at < n {
        let at = w.at;
        w = pieces::next(set, w, piece);
        tally = tally_piece(file, list, at, &piece[..w.at - at], tally);
    }
    if count <= n {
        return tally;
    }
    more_wrong(tally, n, count - n)
}
