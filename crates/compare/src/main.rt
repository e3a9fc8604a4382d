// Compares every whole list with a second computation of it, which divides at each address and shares no function with the walk: all sets of profiles
// 1 to 4, 6 and 7, every K of 5, every K of 8 with LTE's own factors, and 9 with many numbers and at every N, whole and in slices; the test of f1 and
// f2 with trying all positions, for every K of 8 up to 128, and that of P0 to P3 with trying all outputs, for every N of 9 up to 64; the size that
// refusal 3 carries with going through all sizes; the figures and totals of the padding report with what is counted over the lists of 5; and for
// eighteen sets shorter slices, blocks of bytes and single addresses. Each comparison is tried on a list that is wrong on purpose as well, and has to
// count differences there; every K on its list without the exchange of full rectangles, to count the sizes that the exchange touches; the sets of 6
// and 7 on their lists with no stream turned, to count those that are; those of 8 on their lists with t for t², and its test with f1 and f2
// exchanged; those of 9 on their lists with P1 in the third case, a block with the even-numbered couples swapped, and its test with P1 and P2
// exchanged; the sizes that are carried, on the greatest listed ones below; and the padding report, on the lists of the next sizes.
#![tactic(auto)]

mod chosen;
mod count;
mod decided;
mod fitted;
mod fours;
mod lists;
mod moves;
mod num;
mod report;
mod slices;
mod wrong;

use chosen::{Choice, eighteen_at};
use count::{Count, tried_line};
use laws::Way;
use lists::{Made, list_of, symbols_of, walks_of};
use num::sum;
use system::System;

// Two blocks for each set, of low bytes and of high.
fn blocks_one(i: u32, made: Made, list: &mut [u16]) -> Count {
    let set = eighteen_at(i / 2);
    symbols_of(set, made, list);
    let mut src = [0u8; 6144];
    let mut dst = [0u8; 6144];
    let mut again = [0u8; 6144];
    moves::block_of(set, i % 2 == 1, list, &mut src, &mut dst, &mut again)
}

fn blocks_each(list: &mut [u16]) -> Count {
    let mut c = Count::default();
    for i in 0..36 {
        c = c.with(blocks_one(i, Made::Right, list));
    }
    c
}

fn blocks_of(system: System, title: &[u8]) -> u64 {
    let mut list = [0u16; 12288];
    let c = blocks_each(&mut list);
    count::short_line(system, title, c);
    c.differences
}

fn singles_one(i: u32, made: Made, list: &mut [u16]) -> Count {
    let set = eighteen_at(i);
    list_of(Way::Interleaver, set, made, list);
    moves::singles(set, list)
}

fn singles_each(list: &mut [u16]) -> Count {
    let mut c = Count::default();
    for i in 0..18 {
        c = c.with(singles_one(i, Made::Right, list));
    }
    c
}

fn singles_of(system: System, title: &[u8]) -> u64 {
    let mut list = [0u16; 12288];
    let c = singles_each(&mut list);
    count::short_line(system, title, c);
    c.differences
}

fn eighteen_walks(system: System) -> u64 {
    let a = walks_of(
        system,
        Way::Interleaver,
        b"L of eighteen, slices of 1",
        Choice::Eighteen,
        Some(1),
    );
    let b = walks_of(
        system,
        Way::Interleaver,
        b"L of eighteen, slices of 7",
        Choice::Eighteen,
        Some(7),
    );
    let c = walks_of(
        system,
        Way::Interleaver,
        b"L of eighteen, slices of 137",
        Choice::Eighteen,
        Some(137),
    );
    sum(a, sum(b, c))
}

fn eighteen_moves(system: System) -> u64 {
    let a = blocks_of(system, b"blocks of bytes of eighteen, there and back");
    let b = singles_of(system, b"single addresses of eighteen, there and back");
    sum(a, b)
}

fn wrong_block(system: System, i: u32, made: Made, title: &[u8]) {
    let mut list = [0u16; 12288];
    let c = blocks_one(i, made, &mut list);
    count::short_line(system, title, c);
}

fn wrong_blocks(system: System) {
    wrong_block(system, 0, Made::Off, b"wrong on purpose, a block of K 40");
    wrong_block(
        system,
        32,
        Made::SwappedEven,
        b"wrong on purpose, a block of 24 couples with the even-numbered swapped",
    );
}

fn wrong_singles(system: System) {
    let mut list = [0u16; 12288];
    let c = singles_one(0, Made::Off, &mut list);
    count::short_line(system, b"wrong on purpose, single addresses of K 40", c);
}

fn main(rt: HostRuntime) {
    let system = System::of(rt);
    let carriers = sum(lists::every_l(system), lists::every_m(system));
    let turbos = lists::every(
        system,
        Way::Interleaver,
        Choice::Turbos,
        b"L of profile 5, whole",
        b"L of profile 5, slices of 1024",
    );
    let spatials = sum(
        lists::every_spatial_l(system),
        lists::every_spatial_m(system),
    );
    let listed = lists::every_lte(system);
    let pairs = tried_line(
        system,
        b"the test of f1 and f2 against all positions tried, profile 8, K 40 to 128",
        decided::tried(false),
    );
    let lte = sum(listed, pairs);
    let coupled = lists::every_couple(system);
    let fours = tried_line(
        system,
        b"the test of P0 to P3 against all outputs tried, profile 9, N 24 to 64",
        fours::tried(false),
    );
    let wimax = sum(coupled, fours);
    let fitting = fitted::show(
        system,
        b"the size that refusal 3 carries against all sizes gone through, profiles 0 to 10, bits 0 to 7, N 0 to 6200",
        false,
    );
    let reported = report::show(
        system,
        b"the padding report against what is counted over the lists, every K of profile 5 and 290 totals",
        0,
    );
    let eighteen = sum(eighteen_walks(system), eighteen_moves(system));
    wrong::one_off(system);
    wrong_blocks(system);
    wrong_singles(system);
    wrong::walks(system);
    tried_line(
        system,
        b"wrong on purpose, the test of f2 and f1",
        decided::tried(true),
    );
    tried_line(
        system,
        b"wrong on purpose, the test of P0, P2, P1 and P3",
        fours::tried(true),
    );
    fitted::show(
        system,
        b"wrong on purpose, the greatest listed size below",
        true,
    );
    report::show(
        system,
        b"wrong on purpose, the padding report against the lists of the next sizes",
        1,
    );
    let lists = sum(sum(sum(carriers, turbos), spatials), sum(lte, wimax));
    count::last_line(system, sum(sum(sum(lists, fitting), reported), eighteen));
}
