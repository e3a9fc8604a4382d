// L of an accepted set in pieces: a walk that goes on from piece to piece, as long as the lent slice is, so that no table of the whole list is needed and
// no address is worked out twice. Inner functions: whoever calls them has tested the set.
#![tactic(auto)]

ghost use Rattle.std.specs.Prelude.{◌≡◌};
ghost use Rattle.sets.specs.Admits.{Accepted};
ghost use Rattle.pieces.specs.Pieces.{Stands, Pieced};

use laws::Way;
use sets::Set;

// Where a walk for L stands: how many addresses it has written, and the next cell.
#[derive(Clone, Copy)]
pub struct Standing {
    pub at: usize,
    pub cell: usize,
}

// Before the first address.
pub fn begin(set: Set) -> Standing
    ensures { (result.at ≡ 0) × Stands set result }
{
    Standing { at: 0, cell: 0 }
}

// Writes the next addresses of L into a slice, as many as it holds or as there are left.
pub fn next(set: Set, from: Standing, piece: &mut [u16]) -> Standing
    requires { Accepted set × Stands set from }
    ensures { Pieced set from piece.old piece.new result }
{
    match leaves::walk(Way::Interleaver, set, from.cell, piece) {
        Ok(went) => Standing {
            at: from.at + went.written,
            cell: from.cell + went.cells,
        },
        Err(_) => from,
    }
}
