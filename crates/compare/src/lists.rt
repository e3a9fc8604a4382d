// Walks against lists of the second computation: every set of a choice, whole and in slices.
use crate::chosen::{Choice, accepted, set_at, sets_in};
use crate::count::Count;
use crate::num::sum;
use crate::{count, slices};
use laws::Way;
use second::Whole;
use second::num::move_on;
use sets::Set;
use system::System;

// How a list is made: right; or wrong on purpose, one place off, without the exchange at full rectangles, with no stream turned, with t for t², with
// P1 in the third case, or with the even-numbered couples swapped.
#[derive(Clone, Copy)]
pub enum Made {
    Right,
    Off,
    Unexchanged,
    Unturned,
    Unsquared,
    Misprinted,
    SwappedEven,
}

fn one_off(way: Way, set: Set, list: &mut [u16]) -> Whole {
    let w = second::list_of(way, set, list);
    move_on(list);
    w
}

// The whole list of a set by the second computation.
pub fn list_of(way: Way, set: Set, made: Made, list: &mut [u16]) -> Whole {
    match made {
        Made::Right | Made::SwappedEven => second::list_of(way, set, list),
        Made::Off => one_off(way, set, list),
        Made::Unexchanged => second::unexchanged(set, list),
        Made::Unturned => second::unturned(way, set, list),
        Made::Unsquared => second::squares::unsquared(set, list),
        Made::Misprinted => second::coupled::misprinted(set, list),
    }
}

fn symbols_off(set: Set, list: &mut [u16]) {
    second::symbols_of(set, list);
    move_on(list);
}

// The same over symbols, for a block.
pub fn symbols_of(set: Set, made: Made, list: &mut [u16]) {
    match made {
        Made::Off => symbols_off(set, list),
        Made::SwappedEven => second::coupled::swapped_even(set, list),
        _ => second::symbols_of(set, list),
    }
}

// A set is left out where nothing differs.
fn if_touched(c: Count) -> Count {
    if c.differences == 0 {
        return Count::default();
    }
    c
}

// What is counted of a set: without the exchange or the turn, the sets that it touches and no other.
fn counted(made: Made, c: Count) -> Count {
    match made {
        Made::Unexchanged | Made::Unturned => if_touched(c),
        _ => c,
    }
}

// A walk against a list, in slices of a size, or whole.
fn hold(way: Way, w: Whole, size: Option<usize>, list: &[u16], slice: &mut [u16]) -> Count {
    slices::compare(way, w, size.unwrap_or(w.set.n as usize), list, slice)
}

// One set, in slices of a size, or whole. A refused set is passed over.
pub fn walk_one(
    way: Way,
    set: Set,
    size: Option<usize>,
    made: Made,
    list: &mut [u16],
    slice: &mut [u16],
) -> Count {
    if !accepted(set) {
        return Count::default();
    }
    let w = list_of(way, set, made, list);
    counted(made, hold(way, w, size, list, slice))
}

pub fn walk_each(
    way: Way,
    choice: Choice,
    size: Option<usize>,
    made: Made,
    list: &mut [u16],
    slice: &mut [u16],
) -> Count {
    let mut c = Count::default();
    for i in 0..sets_in(choice) {
        c = c.with(walk_one(way, set_at(choice, i), size, made, list, slice));
    }
    c
}

pub fn walks_of(
    system: System,
    way: Way,
    title: &[u8],
    choice: Choice,
    size: Option<usize>,
) -> u64 {
    let mut list = [0u16; 12288];
    let mut slice = [0u16; 6144];
    let c = walk_each(way, choice, size, Made::Right, &mut list, &mut slice);
    count::walks_line(system, title, c);
    c.differences
}

// Every set of a choice, whole and in slices.
pub fn every(system: System, way: Way, choice: Choice, whole: &[u8], sliced: &[u8]) -> u64 {
    let a = walks_of(system, way, whole, choice, None);
    let b = walks_of(system, way, sliced, choice, Some(1024));
    sum(a, b)
}

pub fn every_l(system: System) -> u64 {
    every(
        system,
        Way::Interleaver,
        Choice::Carriers,
        b"L of profiles 1 to 4, whole",
        b"L of profiles 1 to 4, slices of 1024",
    )
}

pub fn every_m(system: System) -> u64 {
    every(
        system,
        Way::Deinterleaver,
        Choice::Carriers,
        b"M of profiles 1 to 4, whole",
        b"M of profiles 1 to 4, slices of 1024",
    )
}

// Profiles 6 and 7, whole and in slices that cut before, at and after the place where a turned list begins again.
fn every_spatial(system: System, way: Way, whole: &[u8], ones: &[u8], sevens: &[u8]) -> u64 {
    let a = walks_of(system, way, whole, Choice::Spatials, None);
    let b = walks_of(system, way, ones, Choice::Spatials, Some(1));
    let c = walks_of(system, way, sevens, Choice::Spatials, Some(7));
    sum(a, sum(b, c))
}

pub fn every_spatial_l(system: System) -> u64 {
    every_spatial(
        system,
        Way::Interleaver,
        b"L of profiles 6 and 7, whole",
        b"L of profiles 6 and 7, slices of 1",
        b"L of profiles 6 and 7, slices of 7",
    )
}

pub fn every_spatial_m(system: System) -> u64 {
    every_spatial(
        system,
        Way::Deinterleaver,
        b"M of profiles 6 and 7, whole",
        b"M of profiles 6 and 7, slices of 1",
        b"M of profiles 6 and 7, slices of 7",
    )
}

// The sizes of LTE with its own factors, whole and in slices.
pub fn every_lte(system: System) -> u64 {
    let a = every(
        system,
        Way::Interleaver,
        Choice::Listed,
        b"L of profile 8, whole",
        b"L of profile 8, slices of 1024",
    );
    sum(
        a,
        walks_of(
            system,
            Way::Interleaver,
            b"L of profile 8, slices of 7",
            Choice::Listed,
            Some(7),
        ),
    )
}

// Profile 9 with many numbers, and each of its sizes, whole and in slices.
pub fn every_couple(system: System) -> u64 {
    let way = Way::Interleaver;
    let a = walks_of(
        system,
        way,
        b"L of profile 9, N 24 to 64, whole",
        Choice::Couples,
        None,
    );
    let b = walks_of(
        system,
        way,
        b"L of profile 9, N 24 to 64, slices of 7",
        Choice::Couples,
        Some(7),
    );
    let c = walks_of(
        system,
        way,
        b"L of profile 9, every N, whole",
        Choice::EveryCouple,
        None,
    );
    let d = walks_of(
        system,
        way,
        b"L of profile 9, every N, slices of 7",
        Choice::EveryCouple,
        Some(7),
    );
    sum(sum(a, b), sum(c, d))
}
