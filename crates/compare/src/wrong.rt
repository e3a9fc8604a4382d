// Walks against lists that are wrong on purpose: what is counted here is in no total.
use crate::chosen::{Choice, turbo_set};
use crate::count;
use crate::lists::{Made, walk_each, walk_one};
use laws::Way;
use system::System;

// K 40 against its list one place off.
pub fn one_off(system: System) {
    let mut list = [0u16; 12288];
    let mut slice = [0u16; 6144];
    let c = walk_one(
        Way::Interleaver,
        turbo_set(40),
        None,
        Made::Off,
        &mut list,
        &mut slice,
    );
    count::walks_line(system, b"wrong on purpose, L of K 40", c);
}

// Every set of a choice.
fn against(system: System, way: Way, choice: Choice, made: Made, title: &[u8]) {
    let mut list = [0u16; 12288];
    let mut slice = [0u16; 6144];
    let c = walk_each(way, choice, None, made, &mut list, &mut slice);
    count::walks_line(system, title, c);
}

// Every K against its list without the exchange: the sizes that it touches, each at two addresses. L and M of profiles 6 and 7 against the lists with
// no stream turned: the sets that are. L of profile 8 with t for t². L of every N of profile 9 with P1 in the third case: a quarter of its addresses.
pub fn walks(system: System) {
    against(
        system,
        Way::Interleaver,
        Choice::Turbos,
        Made::Unexchanged,
        b"wrong on purpose, L of profile 5 without the exchange, the sizes that it touches",
    );
    against(
        system,
        Way::Interleaver,
        Choice::Spatials,
        Made::Unturned,
        b"wrong on purpose, L of profiles 6 and 7 not turned, the sets that are",
    );
    against(
        system,
        Way::Deinterleaver,
        Choice::Spatials,
        Made::Unturned,
        b"wrong on purpose, M of profiles 6 and 7 not turned, the sets that are",
    );
    against(
        system,
        Way::Interleaver,
        Choice::Listed,
        Made::Unsquared,
        b"wrong on purpose, L of profile 8 with t for its square",
    );
    against(
        system,
        Way::Interleaver,
        Choice::EveryCouple,
        Made::Misprinted,
        b"wrong on purpose, L of profile 9 with P1 in the third case",
    );
}
