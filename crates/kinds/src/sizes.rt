// The two kinds of machine by their numbers. (No enum: a record may hold any number for its kind, and of one that is unknown the numbers are asked too,
// so an enum would need a third variant, and would be made of the number at each question.)
ghost use Rattle.std.specs.Prelude.{◌≡◌, ◌<◌};
ghost use Rattle.delay.specs.Machine.{ring_of};
ghost use Rattle.kinds.specs.Kinds.{Sized, sizes_of, known};

use crate::Stream;
use laws::Way;

// How many branches, bytes of a step and bytes of the store.
#[derive(Clone, Copy)]
pub struct Sizes {
    pub branches: usize,
    pub step: usize,
    pub store: usize,
}

impl Sizes {
    pub fn known(kind: u32) -> bool
        ensures { result ≡ known kind }
    {
        kind == Stream::DVB || kind == Stream::ATSC
    }

    // The numbers of a kind; those of ATSC where it is unknown.
    pub fn of(kind: u32) -> Self
        ensures { Sized kind result }
    {
        if kind == Stream::DVB {
            Sizes {
                branches: Stream::DVB_BRANCHES,
                step: Stream::DVB_STEP,
                store: Stream::DVB_STORE,
            }
        } else {
            Sizes {
                branches: Stream::ATSC_BRANCHES,
                step: Stream::ATSC_STEP,
                store: Stream::ATSC_STORE,
            }
        }
    }

    // The ring of branch j, and the branch of ring j: the queue of step * j bytes, or counted from the other end.
    pub fn ring(kind: u32, way: Way, j: usize) -> usize
        requires { j < (sizes_of kind).branches }
        ensures { (result ≡ ring_of way (sizes_of kind).branches j) × (result < (sizes_of kind).branches) }
    {
        match way {
            Way::Interleaver => j,
            Way::Deinterleaver => Self::of(kind).branches - 1 - j,
        }
    }
}
